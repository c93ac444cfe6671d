// Values, lists and dicts: their readers call each other, and the brackets that may still be opened fall, with the bytes left.
ghost use Rattle.std.specs.Prelude.{◌≡◌, ℕ, ◌-◌, ◌<◌, get_or, drop};
ghost use Rattle.json8.specs.declared.nodes.Sort.TheVariants.{Items, Pairs};
ghost use Rattle.json8.specs.Values.{group, value};
ghost use Rattle.json8_leaves.specs.inner.Told.{Place, Told};

use json8_leaves::nodes::Noted;
use json8_leaves::{leaves, nodes, quoted};
use prelude::limits::NODE_MAX;
use prelude::refusals::{Refusal, Refused};
use utf8::classes::Classes;

// A value, which begins with the byte x. The readers of lists and dicts are handed the place behind the bracket.
#[cycle(dict_node_list_node_value_node)]
pub fn value_node(
    t: &Classes,
    text: &[u8],
    at: usize,
    x: u8,
    left: usize,
    n: usize,
    notes: &mut [u64; NODE_MAX],
) -> Result<Noted, Refused>
    requires { Place text.now at n × (x ≡ get_or (drop at text.now) 0 0) }
    ensures { (m : ℕ) → Told text.now (value left at n m (drop at text.now)) at n m result notes.old notes.new }
{
    if x == b'[' {
        return list_node(t, text, at + 1, left, n, notes);
    }
    if x == b'{' {
        return dict_node(t, text, at + 1, left, n, notes);
    }
    quoted::scalar_node(t, text, at, x, n, notes)
}

// A list, from the place behind its bracket on. Its node is noted when the number of its members is known.
#[cycle(dict_node_list_node_value_node)]
fn list_node(
    t: &Classes,
    text: &[u8],
    from: usize,
    left: usize,
    n: usize,
    notes: &mut [u64; NODE_MAX],
) -> Result<Noted, Refused>
    requires { Place text.now (from - 1) n × (0 < from) × (get_or (drop (from - 1) text.now) 0 0 ≡ 0x5b) }
    ensures { (m : ℕ) → Told text.now (group left Items (from - 1) n m (drop (from - 1) text.now)) (from - 1) n m result notes.old notes.new }
{
    let at = from - 1;
    if left == 0 {
        return Err(Refusal::TooDeep.at(at));
    }
    if NODE_MAX <= n {
        return Err(Refusal::TooMany.at(at));
    }
    let mut p: usize = from;
    let mut i: usize = n + 1;
    let mut count: usize = 0;
    loop {
        let start = leaves::next(t, text, p)?;
        if start.byte == b']' {
            nodes::note(n, 7, i - n, at, count, notes);
            return Ok(Noted {
                at: start.at + 1,
                nodes: i,
            });
        }
        let member = value_node(t, text, start.at, start.byte, left - 1, i, notes)?;
        let mark = leaves::mark(t, text, member.at)?;
        if mark.byte == b']' {
            nodes::note(n, 7, member.nodes - n, at, count + 1, notes);
            return Ok(Noted {
                at: mark.at + 1,
                nodes: member.nodes,
            });
        }
        if mark.byte != b',' {
            return Err(leaves::misplaced(text, mark.at).at(mark.at));
        }
        p = mark.at + 1;
        i = member.nodes;
        count += 1;
    }
}

// A dict, whose members are pairs.
#[cycle(dict_node_list_node_value_node)]
fn dict_node(
    t: &Classes,
    text: &[u8],
    from: usize,
    left: usize,
    n: usize,
    notes: &mut [u64; NODE_MAX],
) -> Result<Noted, Refused>
    requires { Place text.now (from - 1) n × (0 < from) × (get_or (drop (from - 1) text.now) 0 0 ≡ 0x7b) }
    ensures { (m : ℕ) → Told text.now (group left Pairs (from - 1) n m (drop (from - 1) text.now)) (from - 1) n m result notes.old notes.new }
{
    let at = from - 1;
    if left == 0 {
        return Err(Refusal::TooDeep.at(at));
    }
    if NODE_MAX <= n {
        return Err(Refusal::TooMany.at(at));
    }
    let mut p: usize = from;
    let mut i: usize = n + 1;
    let mut count: usize = 0;
    loop {
        let start = leaves::next(t, text, p)?;
        if start.byte == b'}' {
            nodes::note(n, 8, i - n, at, count, notes);
            return Ok(Noted {
                at: start.at + 1,
                nodes: i,
            });
        }
        let key = quoted::key_node(t, text, start.at, start.byte, i, notes)?;
        let colon = leaves::around_colon(t, text, key.at)?;
        let member = value_node(t, text, colon.at, colon.byte, left - 1, key.nodes, notes)?;
        let mark = leaves::mark(t, text, member.at)?;
        if mark.byte == b'}' {
            nodes::note(n, 8, member.nodes - n, at, count + 1, notes);
            return Ok(Noted {
                at: mark.at + 1,
                nodes: member.nodes,
            });
        }
        if mark.byte != b',' {
            return Err(leaves::misplaced(text, mark.at).at(mark.at));
        }
        p = mark.at + 1;
        i = member.nodes;
        count += 1;
    }
}
