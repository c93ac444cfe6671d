// The styles of a J8 string, the forms that writing takes, and what a unit is.
ghost use Rattle.std.specs.Prelude.{◌≡◌};
ghost use Rattle.notation.specs.Styles.{quote, style_of};

use utf8::encoding::Few;

// `""`; `u''`, which `''` means; `b''`.
#[derive(Clone, Copy)]
pub enum Style {
    Json,
    Unicode,
    Bytes,
}

// What the writer writes: `""` for valid UTF-8, `b''` for anything else.
#[derive(Clone, Copy)]
pub enum Form {
    AsJson,
    AsBytes,
}

// The closing quote, or a unit of so many bytes, with the bytes that it denotes.
#[derive(Clone, Copy)]
pub enum Unit {
    Close,
    Took(usize, Few),
}

// The closing quote of a style.
pub fn quote_of(style: Style) -> u8
    ensures { result ≡ quote style }
{
    match style {
        Style::Json => b'"',
        Style::Unicode => b'\'',
        Style::Bytes => b'\'',
    }
}

// The style that a form is read in.
pub fn style_of(form: Form) -> Style
    ensures { result ≡ style_of form }
{
    match form {
        Form::AsJson => Style::Json,
        Form::AsBytes => Style::Bytes,
    }
}

// The closing quote of a form.
pub fn quote_in(form: Form) -> u8
    ensures { result ≡ quote (style_of form) }
{
    match form {
        Form::AsJson => b'"',
        Form::AsBytes => b'\'',
    }
}
