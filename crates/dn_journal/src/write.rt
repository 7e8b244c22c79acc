//! Writing a journal.

ghost use Rattle.std.specs.Prelude.{◌≡◌, ◌++◌, ◌<◌, length, codes, OnOk};
ghost use Rattle.std.specs.List.{flat_map, AllByRecursion};
ghost use Rattle.dn_guest.specs.KeepsFront.{KeepsFront};
ghost use Rattle.dn_model.specs.Routers.{name_at};
ghost use Rattle.dn_journal.specs.Spelling.{IsOf, step_line, end_line, journal_text};

use dn_case::push_external;
use dn_guest::{Bytes, NoMemory};
use dn_model::{Header, RouterDef};
use dn_text::Piece::{Decimal, Text};
use dn_text::append_all;
use dn_world::Step;

/// Appends the one spelling of the journal of these steps. The routers that they name are the header's,
/// and what they inject is of a group of the header and may be injected. After `NoMemory` what stood in
/// `out` before still stands at its front.
pub fn write_journal(header: &Header, steps: &[Step], out: &mut Bytes) -> Result<(), NoMemory>
    requires { AllByRecursion (IsOf header.now) steps.now }
    ensures ok { OnOk result (out.new ≡ out.old ++ journal_text header.now steps.now) }
    ensures kept { KeepsFront out.old out.new }
{
    out.append(b"journal\n")?;
    push_steps(out, header, steps)?;
    push_end(out, steps.len() as u64)
}

fn push_steps(out: &mut Bytes, header: &Header, steps: &[Step]) -> Result<(), NoMemory>
    requires { AllByRecursion (IsOf header.now) steps.now }
    ensures ok { OnOk result (out.new ≡ out.old ++ flat_map (step_line header.now) steps.now) }
    ensures kept { KeepsFront out.old out.new }
{
    let mut left = steps;
    'steps: while let Some((step, rest)) = left.split_first() {
        push_step(out, header, step)?;
        left = rest;
    }
    Ok(())
}

fn push_step(out: &mut Bytes, header: &Header, step: &Step) -> Result<(), NoMemory>
    requires { IsOf header.now step.now }
    ensures ok { OnOk result (out.new ≡ out.old ++ step_line header.now step.now) }
    ensures kept { KeepsFront out.old out.new }
{
    let routers = header.routers.as_slice();
    match step {
        Step::Beacon => out.append(b"beacon\n"),
        Step::Inject(external) => {
            out.append(b"inject ")?;
            push_external(out, routers, external)
        }
        Step::Close => out.append(b"close\n"),
        Step::Deliver(place) => {
            append_all(out, &[Text(b"deliver "), Decimal(*place), Text(b"\n")])
        }
        Step::Handle(router) => push_named(out, b"handle ", routers, *router),
        Step::RollBack(router) => push_named(out, b"rollback ", routers, *router),
        Step::Commit => out.append(b"commit\n"),
    }
}

/// A line of a word and a router's name.
fn push_named<'a>(
    out: &mut Bytes,
    word: &'a [u8],
    routers: &'a [RouterDef],
    router: u16,
) -> Result<(), NoMemory>
    requires { router < length routers.now }
    ensures ok { OnOk result (out.new ≡ out.old ++ (word.now ++ (name_at routers.now router ++ codes "\n"))) }
    ensures kept { KeepsFront out.old out.new }
{
    let name = routers[usize::from(router)].name.as_slice();
    append_all(out, &[Text(word), Text(name), Text(b"\n")])
}

fn push_end(out: &mut Bytes, count: u64) -> Result<(), NoMemory>
    ensures ok { OnOk result (out.new ≡ out.old ++ end_line count) }
    ensures kept { KeepsFront out.old out.new }
{
    append_all(out, &[Text(b"end journal "), Decimal(count), Text(b"\n")])
}
