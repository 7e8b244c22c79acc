//! Writing a case.

ghost use Rattle.std.specs.Prelude.{◌≡◌, ◌++◌, ◌∷◌, ◌<◌, [], length, OnOk};
ghost use Rattle.std.specs.List.{flat_map, AllByRecursion};
ghost use Rattle.std.specs.Fmt.{decimal};
ghost use Rattle.dn_guest.specs.KeepsFront.{KeepsFront};
ghost use Rattle.dn_model.specs.Cases.{AreExternals};
ghost use Rattle.dn_model.specs.Routers.{name_at};
ghost use Rattle.dn_case.specs.Shapes.{Feed as FeedLine, End as EndLine};
ghost use Rattle.dn_case.specs.Spelling.{IsFromOutside, kind_word, net_of_prefix, net_text, number_lines, router_line, link_line, prefix_line, prefixes_text, external_line, spelled, header_lines, case_text};

use dn_guest::{Bytes, Input, NoMemory};
use dn_model::{Case, External, Feed, Header, Kind, Link, Prefix, RouterDef};
use dn_net::push_network;
use dn_text::Piece::{Decimal, Hex, Text};
use dn_text::append_all;

fn kind_word(kind: Kind) -> &'static [u8]
    ensures { result.now ≡ kind_word kind }
{
    match kind {
        Kind::Flood => b"flood",
        Kind::Ospf => b"ospf",
        Kind::Rip => b"rip",
    }
}

/// The lines before the routers.
#[tactic(auto, unfolding(crate::specs::Spelling::spelled))]
fn push_numbers(out: &mut Bytes, header: &Header) -> Result<(), NoMemory>
    ensures ok { OnOk result (out.new ≡ out.old ++ flat_map spelled (number_lines header.now)) }
    ensures kept { KeepsFront out.old out.new }
{
    append_all(
        out,
        &[
            Text(b"defined "),
            Decimal(1),
            Text(b"\nperiod "),
            Decimal(u64::from(header.period)),
            Text(b"\ngroups "),
            Decimal(u64::from(header.groups)),
            Text(b"\nseed "),
            Decimal(header.seed),
            Text(b"\n"),
        ],
    )
}

#[tactic(auto, unfolding(crate::specs::Spelling::spelled))]
fn push_router(out: &mut Bytes, router: &RouterDef) -> Result<(), NoMemory>
    ensures ok { OnOk result (out.new ≡ out.old ++ spelled (router_line router.now)) }
    ensures kept { KeepsFront out.old out.new }
{
    append_all(
        out,
        &[
            Text(b"router "),
            Text(router.name.as_slice()),
            Text(b" "),
            Text(kind_word(router.kind)),
            Text(b"\n"),
        ],
    )
}

fn push_routers(out: &mut Bytes, routers: &[RouterDef]) -> Result<(), NoMemory>
    ensures ok { OnOk result (out.new ≡ out.old ++ flat_map (λ r. spelled (router_line r)) routers.now) }
    ensures kept { KeepsFront out.old out.new }
{
    for router in routers {
        push_router(out, router)?;
    }
    Ok(())
}

fn name_at(routers: &[RouterDef], i: usize) -> &[u8]
    requires { i < length routers.now }
    ensures { result.now ≡ name_at routers.now i }
{
    routers[i].name.as_slice()
}

#[tactic(auto, unfolding(crate::specs::Spelling::spelled))]
fn push_link(out: &mut Bytes, routers: &[RouterDef], link: &Link) -> Result<(), NoMemory>
    requires a { link.now.a < length routers.now }
    requires b { link.now.b < length routers.now }
    ensures ok { OnOk result (out.new ≡ out.old ++ spelled (link_line routers.now link.now)) }
    ensures kept { KeepsFront out.old out.new }
{
    append_all(
        out,
        &[
            Text(b"link "),
            Text(name_at(routers, usize::from(link.a))),
            Text(b" "),
            Text(name_at(routers, usize::from(link.b))),
            Text(b" "),
            Decimal(u64::from(link.delay)),
            Text(b" "),
            Decimal(u64::from(link.cost)),
            Text(b"\n"),
        ],
    )
}

fn push_links(out: &mut Bytes, routers: &[RouterDef], links: &[Link]) -> Result<(), NoMemory>
    requires { AllByRecursion (λ l. (l.a < length routers.now) × (l.b < length routers.now)) links.now }
    ensures ok { OnOk result (out.new ≡ out.old ++ flat_map (λ l. spelled (link_line routers.now l)) links.now) }
    ensures kept { KeepsFront out.old out.new }
{
    let mut left = links;
    'links: while let Some((link, rest)) = left.split_first() {
        push_link(out, routers, link)?;
        left = rest;
    }
    Ok(())
}

fn push_prefix(out: &mut Bytes, name: &[u8], prefix: &Prefix) -> Result<(), NoMemory>
    ensures ok { OnOk result (out.new ≡ out.old ++ spelled (prefix_line name.now prefix.now)) }
    ensures kept { KeepsFront out.old out.new }
{
    append_all(out, &[Text(b"prefix "), Text(name), Text(b" ")])?;
    push_network(prefix.address, prefix.len, out)?;
    append_all(
        out,
        &[Text(b" "), Decimal(u64::from(prefix.cost)), Text(b"\n")],
    )
}

#[tactic(auto, unfolding(crate::specs::Spelling::prefixes_text))]
fn push_prefixes(out: &mut Bytes, router: &RouterDef) -> Result<(), NoMemory>
    ensures ok { OnOk result (out.new ≡ out.old ++ prefixes_text router.now) }
    ensures kept { KeepsFront out.old out.new }
{
    for prefix in router.prefixes.as_slice() {
        push_prefix(out, router.name.as_slice(), prefix)?;
    }
    Ok(())
}

fn push_all_prefixes(out: &mut Bytes, routers: &[RouterDef]) -> Result<(), NoMemory>
    ensures ok { OnOk result (out.new ≡ out.old ++ flat_map prefixes_text routers.now) }
    ensures kept { KeepsFront out.old out.new }
{
    for router in routers {
        push_prefixes(out, router)?;
    }
    Ok(())
}

/// Appends the external's line. Its input is a command, a port that goes down or one that comes up. After
/// `NoMemory` what stood in `out` before still stands at its front.
#[tactic(auto, unfolding(crate::specs::Spelling::spelled))]
pub fn push_external<'a>(
    out: &mut Bytes,
    routers: &'a [RouterDef],
    external: &'a External,
) -> Result<(), NoMemory>
    requires router { external.now.router < length routers.now }
    requires input { IsFromOutside external.now.input }
    ensures ok { OnOk result (out.new ≡ out.old ++ spelled (external_line routers.now external.now)) }
    ensures kept { KeepsFront out.old out.new }
{
    let (word, field) = match &external.input {
        Input::Cmd(body) => (&b" cmd "[..], Hex(body.as_slice())),
        Input::Down(port) => (&b" down "[..], Decimal(u64::from(*port))),
        Input::Up(port) => (&b" up "[..], Decimal(u64::from(*port))),
        Input::Tick(_) | Input::Msg(_, _) => unreachable!(),
    };
    append_all(
        out,
        &[
            Text(b"@"),
            Decimal(u64::from(external.group)),
            Text(b" "),
            Text(name_at(routers, usize::from(external.router))),
            Text(word),
            field,
            Text(b"\n"),
        ],
    )
}

fn push_externals(out: &mut Bytes, routers: &[RouterDef], feed: &[External]) -> Result<(), NoMemory>
    requires { AllByRecursion (λ x. (x.router < length routers.now) × IsFromOutside x.input) feed.now }
    ensures ok { OnOk result (out.new ≡ out.old ++ flat_map (λ x. spelled (external_line routers.now x)) feed.now) }
    ensures kept { KeepsFront out.old out.new }
{
    let mut left = feed;
    'externals: while let Some((external, rest)) = left.split_first() {
        push_external(out, routers, external)?;
        left = rest;
    }
    Ok(())
}

/// The lines before the feed.
fn push_header(out: &mut Bytes, header: &Header) -> Result<(), NoMemory>
    ensures ok { OnOk result (out.new ≡ out.old ++ flat_map spelled (header_lines header.now)) }
    ensures kept { KeepsFront out.old out.new }
{
    let routers = header.routers.as_slice();
    push_numbers(out, header)?;
    push_routers(out, routers)?;
    push_links(out, routers, header.links.as_slice())?;
    push_all_prefixes(out, routers)
}

fn push_feed(out: &mut Bytes, header: &Header, feed: &Feed) -> Result<(), NoMemory>
    requires { AreExternals header.now 0 feed.now }
    ensures ok { OnOk result (out.new ≡ out.old ++
        flat_map (λ x. spelled (external_line header.now.routers x)) feed.now) }
    ensures kept { KeepsFront out.old out.new }
{
    push_externals(out, header.routers.as_slice(), feed.as_slice())
}

#[tactic(auto, unfolding(crate::specs::Spelling::spelled))]
fn push_feed_line(out: &mut Bytes) -> Result<(), NoMemory>
    ensures ok { OnOk result (out.new ≡ out.old ++ spelled FeedLine) }
    ensures kept { KeepsFront out.old out.new }
{
    out.append(b"feed\n")
}

#[tactic(auto, unfolding(crate::specs::Spelling::spelled))]
fn push_end_line(out: &mut Bytes) -> Result<(), NoMemory>
    ensures ok { OnOk result (out.new ≡ out.old ++ spelled EndLine) }
    ensures kept { KeepsFront out.old out.new }
{
    out.append(b"end\n")
}

/// Appends the case's one spelling in which the prefix lines stand in the order of the routers. After
/// `NoMemory` what stood in `out` before still stands at its front.
pub fn write_case(case: &Case, out: &mut Bytes) -> Result<(), NoMemory>
    ensures ok { OnOk result (out.new ≡ out.old ++ case_text case.now) }
    ensures kept { KeepsFront out.old out.new }
{
    push_header(out, &case.header)?;
    push_feed_line(out)?;
    push_feed(out, &case.header, &case.feed)?;
    push_end_line(out)
}
