//! What stands in an ontology: up to two IRIs, then direct items.

ghost use Rattle.std.specs.Prelude.{◌≡◌, ◌≤◌, ◌+◌, map, length, Ok, Err, IfErr, OnOk};
ghost use Rattle.ofn_axiom.specs.Inside.Marks.{IsMark};
ghost use Rattle.ofn_axiom.specs.Inside.Steps.{Gives, Fails};
ghost use Rattle.ofn_axiom.specs.Given.{given, after_iris, directs, ontology_group};
ghost use Rattle.ofn_axiom.specs.Taking.{with_direct, taken_in, passed_over, taken, IsNamesBefore};

use crate::axioms::direct_of;
use crate::fault::{OffsetFault, Stop};
use crate::items::{first_item, name_of_item, place_of_item};
use crate::marks::{Mark, mark_of, place_from};
use crate::numbers::{axiom_over, hold_all, mentions_of};
use crate::types::{Direct, Document, Mode, Names, Omitted};
use ofn_heads::Named;
use ofn_term::Item;
use std::alloc::{AllocError, Global};
use text_names::PrefixMap;

// What follows up to two IRIs.
fn after_iris<'a>(
    alloc: Global,
    text: &[u8],
    prefixes: &PrefixMap,
    most: u32,
    items: &'a [Item],
) -> Result<&'a [Item], Stop>
    ensures { Gives (λ rest. map (given text.now prefixes.now) rest.now) result
        (after_iris most (map (given text.now prefixes.now) items.now)) }
{
    let mut rest = items;
    let mut left = most;
    loop {
        let Some((first, others)) = first_item(rest) else {
            return Ok(rest);
        };
        if left == 0 {
            return Ok(rest);
        }
        match name_of_item(alloc, text, prefixes, first)? {
            Named::Iri(_) => {}
            Named::Unknown => {
                return Err(Stop::Fault(OffsetFault::PrefixUnknown {
                    at: place_of_item(text, prefixes, first),
                }));
            }
            Named::NoIri => return Ok(rest),
        }
        rest = others;
        left -= 1;
    }
}

fn add(
    alloc: Global,
    names: &Names,
    direct: &Direct,
    document: &mut Document,
) -> Result<(), AllocError>
    ensures ok { OnOk result (document.new ≡ with_direct names.now direct.now document.old) }
{
    match direct {
        Direct::Axiom(said) => {
            let found = axiom_over(alloc, names, said)?;
            document.axioms.push(found)
        }
        _ => Ok(()),
    }
}

fn take_read(
    alloc: Global,
    direct: &Direct,
    document: &mut Document,
    names: &mut Names,
) -> Result<(), Stop>
    ensures ok { OnOk result
        (taken_in direct.now document.old names.old ≡ Ok (document.new, names.new)) }
    ensures err { IfErr result (λ stop. Fails stop
        (taken_in direct.now document.old names.old)) }
    ensures grows { IsNamesBefore names.old names.new }
{
    let mentions = mentions_of(alloc, direct)?;
    match hold_all(names, mentions.as_slice()) {
        Ok(()) => {}
        Err(stop) => return Err(stop),
    }
    add(alloc, names, direct, document)?;
    Ok(())
}

// An item with a fault, which is left out if only the part in the profile is asked for.
fn pass_over(
    text: &[u8],
    mode: Mode,
    fault: OffsetFault,
    mark: &mut Mark,
    document: &mut Document,
    names: &Names,
) -> Result<(), Stop>
    requires mark { IsMark text.now mark.old }
    ensures ok { OnOk result (passed_over text.now mode fault (document.old, names.now) ≡
        Ok (document.new, names.now)) }
    ensures err { IfErr result (λ stop. Fails stop
        (passed_over text.now mode fault (document.old, names.now))) }
    ensures mark { IsMark text.now mark.new }
{
    match mode {
        Mode::Strict => Err(Stop::Fault(fault)),
        Mode::ElPart => match fault {
            OffsetFault::Profile { at, head } => {
                let place = place_from(text, mark, at);
                document.omitted.push(Omitted { place, head })?;
                Ok(())
            }
            _ => Err(Stop::Fault(fault)),
        },
    }
}

fn take(
    alloc: Global,
    text: &[u8],
    prefixes: &PrefixMap,
    mode: Mode,
    item: &Item,
    mark: &mut Mark,
    document: &mut Document,
    names: &mut Names,
) -> Result<(), Stop>
    requires mark { IsMark text.now mark.old }
    ensures ok { OnOk result (taken text.now mode (given text.now prefixes.now item.now).direct
        (document.old, names.old) ≡ Ok (document.new, names.new)) }
    ensures err { IfErr result (λ stop. Fails stop (taken text.now mode
        (given text.now prefixes.now item.now).direct (document.old, names.old))) }
    ensures mark { IsMark text.now mark.new }
    ensures grows { IsNamesBefore names.old names.new }
{
    match direct_of(alloc, text, prefixes, item) {
        Ok(direct) => take_read(alloc, &direct, document, names),
        Err(Stop::Memory) => Err(Stop::Memory),
        Err(Stop::Fault(fault)) => pass_over(text, mode, fault, mark, document, names),
    }
}

fn directs(
    alloc: Global,
    text: &[u8],
    prefixes: &PrefixMap,
    mode: Mode,
    items: &[Item],
    document: &mut Document,
    names: &mut Names,
) -> Result<(), Stop>
    ensures ok { OnOk result (directs text.now mode (map (given text.now prefixes.now) items.now)
        (document.old, names.old) ≡ Ok (document.new, names.new)) }
    ensures err { IfErr result (λ stop. Fails stop (directs text.now mode
        (map (given text.now prefixes.now) items.now) (document.old, names.old))) }
    ensures grows { IsNamesBefore names.old names.new }
{
    let mut mark = mark_of(text);
    for item in items {
        match take(
            alloc, text, prefixes, mode, item, &mut mark, document, names,
        ) {
            Ok(()) => {}
            Err(stop) => return Err(stop),
        }
    }
    Ok(())
}

fn ontology_group(
    alloc: Global,
    text: &[u8],
    prefixes: &PrefixMap,
    mode: Mode,
    items: &[Item],
    document: &mut Document,
    names: &mut Names,
) -> Result<(), Stop>
    ensures ok { OnOk result (ontology_group text.now (map (given text.now prefixes.now) items.now)
        mode (document.old, names.old) ≡ Ok (document.new, names.new)) }
    ensures err { IfErr result (λ stop. Fails stop (ontology_group text.now
        (map (given text.now prefixes.now) items.now) mode (document.old, names.old))) }
    ensures grows { IsNamesBefore names.old names.new }
{
    let rest = match after_iris(alloc, text, prefixes, 2, items) {
        Ok(rest) => rest,
        Err(stop) => return Err(stop),
    };
    directs(alloc, text, prefixes, mode, rest, document, names)
}

// What an item adds as an ontology.
#[tactic(auto, using(crate::proofs::GivenLaws::atom_gives, crate::proofs::GivenLaws::bare_gives, crate::proofs::GivenLaws::ontology_gives))]
pub fn ontology_of(
    alloc: Global,
    text: &[u8],
    prefixes: &PrefixMap,
    mode: Mode,
    item: &Item,
    document: &mut Document,
    names: &mut Names,
) -> Result<(), Stop>
    ensures ok { OnOk result ((given text.now prefixes.now item.now).ontology mode
        (document.old, names.old) ≡ Ok (document.new, names.new)) }
    ensures err { IfErr result (λ stop. Fails stop
        ((given text.now prefixes.now item.now).ontology mode (document.old, names.old))) }
    ensures grows { IsNamesBefore names.old names.new }
{
    match item {
        Item::Atom(token) => Err(Stop::Fault(OffsetFault::Head { at: token.start })),
        Item::Group {
            head,
            items,
            start,
            ..
        } => {
            let Some(_) = head else {
                return Err(Stop::Fault(OffsetFault::Head { at: *start }));
            };
            ontology_group(
                alloc,
                text,
                prefixes,
                mode,
                items.as_slice(),
                document,
                names,
            )
        }
    }
}
