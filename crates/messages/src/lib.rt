// What the command says, as definitions: a sentence behind what it is about, as a plain line or a JSON object; claims of these, and no code.
#![tactic(auto)]

// Where the place of a refusal is counted from: a line of a J8 Lines backup, a JSON8 text, of which the line and the column are told too, or
// a J8 string.
#[derive(Clone, Copy)]
pub enum Spot {
    Line(usize),
    Text(usize, usize),
    Quoted,
}

// What stands before a sentence: a refusal's number and where it stands, or the command's name.
#[derive(Clone, Copy)]
pub enum Head {
    Refused(u32, Spot, usize),
    Note,
}
