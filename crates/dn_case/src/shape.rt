//! What a line says, by its words, the number of its fields and their spelling alone.

ghost use Rattle.std.specs.Prelude.{◌≡◌, ◌∷◌, [], IfSome, IsTrue, nat_eq, codes};
ghost use Rattle.std.specs.Option.{option_map, option_copied};
ghost use Rattle.dn_model.specs.Names.{is_name};
ghost use Rattle.dn_text.specs.Lines.{parts};
ghost use Rattle.dn_case.specs.Shapes.{IsNamed, line, ask, is_word, name_of, kind_of, address_of, net_of_parts, net_of, one_field, two_fields, three_fields, group_of, ask_of, four_fields, five_fields, line_of_fields, before_newline, line_of};

use dn_model::{Kind, is_name};
use dn_text::{Number, first_part, is_hex, numeral};

/// A.B.C.D/LEN, as it is spelled.
#[derive(Clone, Copy)]
pub struct Net {
    pub a: Number,
    pub b: Number,
    pub c: Number,
    pub d: Number,
    pub len: Number,
}

/// What an external line asks. A command stays in hexadecimal.
#[derive(Clone, Copy)]
pub enum Asked<'a> {
    Cmd(&'a [u8]),
    Down(Number),
    Up(Number),
}

#[derive(Clone, Copy)]
pub enum Shape<'a> {
    Version(Number),
    Period(Number),
    Groups(Number),
    Seed(Number),
    Router(&'a [u8], Kind),
    Link(&'a [u8], &'a [u8], Number, Number),
    Prefix(&'a [u8], Net, Number),
    Feed,
    External(Number, &'a [u8], Asked<'a>),
    End,
}

fn is_word(text: &[u8], word: &[u8]) -> bool
    ensures { result ≡ is_word text.now word.now }
{
    text == word
}

/// The text, if it is a name.
pub fn name_of(text: &[u8]) -> Option<&[u8]>
    ensures read { option_copied result ≡ name_of text.now }
    ensures named { IfSome result (λ name. IsTrue (is_name name.now)) }
{
    if is_name(text) { Some(text) } else { None }
}

/// The kind of a word.
#[tactic(auto, unfolding(crate::specs::Shapes::kind_of))]
fn kind_of(text: &[u8]) -> Option<Kind>
    ensures { result ≡ kind_of text.now }
{
    if is_word(text, b"flood") {
        Some(Kind::Flood)
    } else if is_word(text, b"ospf") {
        Some(Kind::Ospf)
    } else if is_word(text, b"rip") {
        Some(Kind::Rip)
    } else {
        None
    }
}

fn four_numbers(a: &[u8], b: &[u8], c: &[u8], d: &[u8]) -> Option<(Number, Number, Number, Number)>
    ensures { result ≡ address_of (a.now ∷ b.now ∷ c.now ∷ d.now ∷ []) }
{
    Some((numeral(a)?, numeral(b)?, numeral(c)?, numeral(d)?))
}

fn address_of(text: &[u8]) -> Option<(Number, Number, Number, Number)>
    ensures { result ≡ address_of (parts 46 text.now) }
{
    let (a, rest) = first_part(b'.', text);
    let (b, rest) = first_part(b'.', rest?);
    let (c, rest) = first_part(b'.', rest?);
    let (d, rest) = first_part(b'.', rest?);
    match rest {
        None => four_numbers(a, b, c, d),
        Some(_rest) => None,
    }
}

fn net_of_parts(address: &[u8], len: &[u8]) -> Option<Net>
    ensures { result ≡ net_of_parts (address.now ∷ len.now ∷ []) }
{
    let (a, b, c, d) = address_of(address)?;
    let len = numeral(len)?;
    Some(Net { a, b, c, d, len })
}

#[tactic(auto, unfolding(crate::specs::Shapes::net_of))]
fn net_of(text: &[u8]) -> Option<Net>
    ensures { result ≡ net_of text.now }
{
    let (address, rest) = first_part(b'/', text);
    let (len, rest) = first_part(b'/', rest?);
    match rest {
        None => net_of_parts(address, len),
        Some(_rest) => None,
    }
}

#[tactic(auto, unfolding(crate::specs::Shapes::one_field))]
fn one_field(word: &[u8]) -> Option<Shape<'_>>
    ensures read { option_map line result ≡ one_field word.now }
    ensures named { IfSome result (λ shape. IsNamed (line shape)) }
{
    if is_word(word, b"feed") {
        Some(Shape::Feed)
    } else if is_word(word, b"end") {
        Some(Shape::End)
    } else {
        None
    }
}

#[tactic(auto, unfolding(crate::specs::Shapes::two_fields))]
fn two_fields<'a>(word: &'a [u8], field: &'a [u8]) -> Option<Shape<'a>>
    ensures read { option_map line result ≡ two_fields word.now field.now }
    ensures named { IfSome result (λ shape. IsNamed (line shape)) }
{
    let n = numeral(field)?;
    if is_word(word, b"defined") {
        Some(Shape::Version(n))
    } else if is_word(word, b"period") {
        Some(Shape::Period(n))
    } else if is_word(word, b"groups") {
        Some(Shape::Groups(n))
    } else if is_word(word, b"seed") {
        Some(Shape::Seed(n))
    } else {
        None
    }
}

#[tactic(auto, unfolding(crate::specs::Shapes::three_fields))]
fn three_fields<'a>(word: &'a [u8], name: &'a [u8], kind: &'a [u8]) -> Option<Shape<'a>>
    ensures read { option_map line result ≡ three_fields word.now name.now kind.now }
    ensures named { IfSome result (λ shape. IsNamed (line shape)) }
{
    if is_word(word, b"router") {
        Some(Shape::Router(name_of(name)?, kind_of(kind)?))
    } else {
        None
    }
}

fn group_of(word: &[u8]) -> Option<Number>
    ensures { result ≡ group_of word.now }
{
    match word.split_first() {
        None => None,
        Some((first, text)) => { if *first == b'@' { numeral(text) } else { None } }
    }
}

/// What the last two fields of an external line ask.
#[tactic(auto, unfolding(crate::specs::Shapes::ask_of))]
pub fn ask_of<'a>(word: &'a [u8], field: &'a [u8]) -> Option<Asked<'a>>
    ensures { option_map ask result ≡ ask_of word.now field.now }
{
    if is_word(word, b"cmd") {
        if is_hex(field) {
            Some(Asked::Cmd(field))
        } else {
            None
        }
    } else if is_word(word, b"down") {
        Some(Asked::Down(numeral(field)?))
    } else if is_word(word, b"up") {
        Some(Asked::Up(numeral(field)?))
    } else {
        None
    }
}

#[tactic(auto, unfolding(crate::specs::Shapes::four_fields))]
fn four_fields<'a>(
    word: &'a [u8],
    name: &'a [u8],
    third: &'a [u8],
    fourth: &'a [u8],
) -> Option<Shape<'a>>
    ensures read { option_map line result ≡ four_fields word.now name.now third.now fourth.now }
    ensures named { IfSome result (λ shape. IsNamed (line shape)) }
{
    if is_word(word, b"prefix") {
        let name = name_of(name)?;
        let net = net_of(third)?;
        let cost = numeral(fourth)?;
        Some(Shape::Prefix(name, net, cost))
    } else {
        let group = group_of(word)?;
        let name = name_of(name)?;
        let asked = ask_of(third, fourth)?;
        Some(Shape::External(group, name, asked))
    }
}

#[tactic(auto, unfolding(crate::specs::Shapes::five_fields))]
fn five_fields<'a>(
    word: &'a [u8],
    a: &'a [u8],
    b: &'a [u8],
    delay: &'a [u8],
    cost: &'a [u8],
) -> Option<Shape<'a>>
    ensures read { option_map line result ≡ five_fields word.now a.now b.now delay.now cost.now }
    ensures named { IfSome result (λ shape. IsNamed (line shape)) }
{
    if is_word(word, b"link") {
        let a = name_of(a)?;
        let b = name_of(b)?;
        let delay = numeral(delay)?;
        let cost = numeral(cost)?;
        Some(Shape::Link(a, b, delay, cost))
    } else {
        None
    }
}

fn line_of_fields(text: &[u8]) -> Option<Shape<'_>>
    ensures read { option_map line result ≡ line_of_fields (parts 32 text.now) }
    ensures named { IfSome result (λ shape. IsNamed (line shape)) }
{
    let (word, rest) = first_part(b' ', text);
    let Some(rest) = rest else {
        return one_field(word);
    };
    let (a, rest) = first_part(b' ', rest);
    let Some(rest) = rest else {
        return two_fields(word, a);
    };
    let (b, rest) = first_part(b' ', rest);
    let Some(rest) = rest else {
        return three_fields(word, a, b);
    };
    let (c, rest) = first_part(b' ', rest);
    let Some(rest) = rest else {
        return four_fields(word, a, b, c);
    };
    let (d, rest) = first_part(b' ', rest);
    match rest {
        None => five_fields(word, a, b, c, d),
        Some(_rest) => None,
    }
}

#[tactic(auto, unfolding(crate::specs::Shapes::before_newline))]
fn before_newline(text: &[u8]) -> Option<&[u8]>
    ensures { option_copied result ≡ before_newline text.now }
{
    text.strip_suffix(b"\n")
}

/// What a line with its newline says, if it has one of the shapes.
#[tactic(auto, unfolding(crate::specs::Shapes::line_of))]
pub fn line_of(text: &[u8]) -> Option<Shape<'_>>
    ensures read { option_map line result ≡ line_of text.now }
    ensures named { IfSome result (λ shape. IsNamed (line shape)) }
{
    line_of_fields(before_newline(text)?)
}
