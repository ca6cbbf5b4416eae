//! Names in order of the text, and numbers in their place.

ghost use Rattle.std.specs.Prelude.{◌≡◌, ◌++◌, map, Ok, Err, None, Some, true, false, IfOk, IfErr, OnOk, MatchResult};
ghost use Rattle.ofn_axiom.specs.Inside.Steps.{Fails};
ghost use Rattle.ofn_axiom.specs.Taking.{IsTableBefore, IsNamesBefore};
ghost use Rattle.ofn_axiom.specs.Numbers.{mentions, all_mentions, properties, axiom_mentions, direct_mentions, is_full_for, held_in, with_mention, with_mentions, number_in, expr_over, axiom_over};
ghost use Rattle.ofn_axiom.specs.declared.types.Mention.TheVariants as mention;
ghost use Rattle.text_names.specs.declared.names.NameFault.TheVariants.{Full};

use crate::fault::{OffsetFault, Stop};
use crate::types::{Direct, IriAxiom, IriExpr, Mention, Mentions, Names};
use el_logic::{Axiom, Boxed, Expr, Exprs, Numbers};
use std::alloc::{AllocError, Global};
use text_names::{NameFault, NameTable, Text};

#[cycle(mentions)]
#[tactic(auto, using(crate::proofs::NumberLaws::mentions_top, crate::proofs::NumberLaws::mentions_bottom, crate::proofs::NumberLaws::mentions_class, crate::proofs::NumberLaws::mentions_and, crate::proofs::NumberLaws::mentions_exists, crate::proofs::NumberLaws::after_one))]
fn mention(alloc: Global, out: &mut Mentions, class: &IriExpr) -> Result<(), AllocError>
    ensures { OnOk result (out.new ≡ out.old ++ mentions class.now) }
{
    match class {
        IriExpr::Top => Ok(()),
        IriExpr::Bottom => Ok(()),
        IriExpr::Class(iri) => out.push(Mention::Class(iri.copy(alloc)?)),
        IriExpr::And(classes) => mention_all(alloc, out, classes.as_slice()),
        IriExpr::Exists(property, filler) => {
            out.push(Mention::Property(property.copy(alloc)?))?;
            mention(alloc, out, filler.get())
        }
    }
}

#[cycle(mentions)]
fn mention_all(alloc: Global, out: &mut Mentions, classes: &[IriExpr]) -> Result<(), AllocError>
    ensures { OnOk result (out.new ≡ out.old ++ all_mentions classes.now) }
{
    for class in classes {
        mention(alloc, out, class)?;
    }
    Ok(())
}

fn mention_properties(alloc: Global, out: &mut Mentions, iris: &[Text]) -> Result<(), AllocError>
    ensures { OnOk result (out.new ≡ out.old ++ properties iris.now) }
{
    for iri in iris {
        out.push(Mention::Property(iri.copy(alloc)?))?;
    }
    Ok(())
}

fn mention_axiom(alloc: Global, out: &mut Mentions, said: &IriAxiom) -> Result<(), AllocError>
    ensures { OnOk result (out.new ≡ out.old ++ axiom_mentions said.now) }
{
    match said {
        IriAxiom::SubClass(lower, upper) => {
            mention(alloc, out, lower)?;
            mention(alloc, out, upper)
        }
        IriAxiom::Equivalent(classes) => mention_all(alloc, out, classes.as_slice()),
        IriAxiom::Disjoint(classes) => mention_all(alloc, out, classes.as_slice()),
        IriAxiom::SubRole(chain, property) => {
            mention_properties(alloc, out, chain.as_slice())?;
            out.push(Mention::Property(property.copy(alloc)?))
        }
        IriAxiom::EquivalentRoles(iris) => mention_properties(alloc, out, iris.as_slice()),
        IriAxiom::Transitive(property) => out.push(Mention::Property(property.copy(alloc)?)),
        IriAxiom::Reflexive(property) => out.push(Mention::Property(property.copy(alloc)?)),
        IriAxiom::Domain(property, class) => {
            out.push(Mention::Property(property.copy(alloc)?))?;
            mention(alloc, out, class)
        }
    }
}

// The names that a direct item has, in order of the text.
pub fn mentions_of(alloc: Global, direct: &Direct) -> Result<Mentions, AllocError>
    ensures { IfOk result (λ found. found ≡ direct_mentions direct.now) }
{
    let mut out = Mentions::new(alloc);
    match direct {
        Direct::Nothing => {}
        Direct::Class(name) => out.push(Mention::Class(name.copy(alloc)?))?,
        Direct::Property(name) => out.push(Mention::Property(name.copy(alloc)?))?,
        Direct::Axiom(said) => mention_axiom(alloc, &mut out, said)?,
    }
    Ok(out)
}

#[tactic(auto, using(crate::proofs::NumberLaws::room, crate::proofs::NumberLaws::no_room, crate::proofs::NumberLaws::table_with_name, crate::proofs::NumberLaws::table_same))]
fn hold(table: &mut NameTable, name: &Text) -> Result<(), NameFault>
    ensures ok { OnOk result ((is_full_for table.old name.now ≡ false) ×
        (table.new ≡ held_in table.old name.now)) }
    ensures full { result ≡ Err Full → is_full_for table.old name.now ≡ true }
    ensures grows { IsTableBefore table.old table.new }
{
    match table.number(name.bytes()) {
        Ok(_) => Ok(()),
        Err(fault) => Err(fault),
    }
}

fn hold_class(names: &mut Names, name: &Text) -> Result<(), Stop>
    ensures ok { OnOk result (with_mention (mention.Class name.now) names.old ≡ Ok names.new) }
    ensures err { IfErr result (λ stop.
        Fails stop (with_mention (mention.Class name.now) names.old)) }
    ensures grows { IsNamesBefore names.old names.new }
{
    match hold(&mut names.classes, name) {
        Ok(()) => Ok(()),
        Err(NameFault::Full) => Err(Stop::Fault(OffsetFault::TooManyClasses)),
        Err(NameFault::OutOfMemory) => Err(Stop::Memory),
    }
}

fn hold_property(names: &mut Names, name: &Text) -> Result<(), Stop>
    ensures ok { OnOk result (with_mention (mention.Property name.now) names.old ≡ Ok names.new) }
    ensures err { IfErr result (λ stop. Fails stop
        (with_mention (mention.Property name.now) names.old)) }
    ensures grows { IsNamesBefore names.old names.new }
{
    match hold(&mut names.roles, name) {
        Ok(()) => Ok(()),
        Err(NameFault::Full) => Err(Stop::Fault(OffsetFault::TooManyProperties)),
        Err(NameFault::OutOfMemory) => Err(Stop::Memory),
    }
}

fn hold_mention(names: &mut Names, mention: &Mention) -> Result<(), Stop>
    ensures ok { OnOk result (with_mention mention.now names.old ≡ Ok names.new) }
    ensures err { IfErr result (λ stop. Fails stop (with_mention mention.now names.old)) }
    ensures grows { IsNamesBefore names.old names.new }
{
    match mention {
        Mention::Class(name) => hold_class(names, name),
        Mention::Property(name) => hold_property(names, name),
    }
}

// Holds the names, each in its turn.
pub fn hold_all(names: &mut Names, mentions: &[Mention]) -> Result<(), Stop>
    ensures ok { OnOk result (with_mentions mentions.now names.old ≡ Ok names.new) }
    ensures err { IfErr result (λ stop. Fails stop (with_mentions mentions.now names.old)) }
    ensures grows { IsNamesBefore names.old names.new }
{
    for mention in mentions {
        match hold_mention(names, mention) {
            Ok(()) => {}
            Err(stop) => return Err(stop),
        }
    }
    Ok(())
}

fn number_in(table: &NameTable, name: &Text) -> u32
    ensures { result ≡ number_in table.now name.now }
{
    match table.find(name.bytes()) {
        Some(number) => number,
        None => 0,
    }
}

#[cycle(over)]
#[tactic(auto, using(crate::proofs::NumberLaws::over_top, crate::proofs::NumberLaws::over_bottom, crate::proofs::NumberLaws::over_class, crate::proofs::NumberLaws::over_and, crate::proofs::NumberLaws::over_exists))]
fn expr_over(alloc: Global, names: &Names, class: &IriExpr) -> Result<Expr, AllocError>
    ensures { IfOk result (λ found. found ≡ expr_over names.now class.now) }
{
    match class {
        IriExpr::Top => Ok(Expr::Top),
        IriExpr::Bottom => Ok(Expr::Bottom),
        IriExpr::Class(name) => Ok(Expr::Name(number_in(&names.classes, name))),
        IriExpr::And(classes) => Ok(Expr::And(exprs_over(alloc, names, classes.as_slice())?)),
        IriExpr::Exists(property, filler) => {
            let filler = expr_over(alloc, names, filler.get())?;
            let property = number_in(&names.roles, property);
            Ok(Expr::Exists(property, Boxed::new(alloc, filler)?))
        }
    }
}

#[cycle(over)]
fn exprs_over(alloc: Global, names: &Names, classes: &[IriExpr]) -> Result<Exprs, AllocError>
    ensures { IfOk result (λ found. found ≡ map (expr_over names.now) classes.now) }
{
    let mut done = Exprs::new(alloc);
    for class in classes {
        let found = expr_over(alloc, names, class)?;
        done.push(found)?;
    }
    Ok(done)
}

fn numbers_in(alloc: Global, table: &NameTable, names: &[Text]) -> Result<Numbers, AllocError>
    ensures { IfOk result (λ found. found ≡ map (number_in table.now) names.now) }
{
    let mut done = Numbers::new(alloc);
    for name in names {
        done.push(number_in(table, name))?;
    }
    Ok(done)
}

// An axiom with numbers in place of names.
pub fn axiom_over(alloc: Global, names: &Names, said: &IriAxiom) -> Result<Axiom, AllocError>
    ensures { IfOk result (λ found. found ≡ axiom_over names.now said.now) }
{
    match said {
        IriAxiom::SubClass(lower, upper) => {
            let lower = expr_over(alloc, names, lower)?;
            let upper = expr_over(alloc, names, upper)?;
            Ok(Axiom::SubClass(lower, upper))
        }
        IriAxiom::Equivalent(classes) => {
            let classes = exprs_over(alloc, names, classes.as_slice())?;
            Ok(Axiom::Equivalent(classes))
        }
        IriAxiom::Disjoint(classes) => {
            let classes = exprs_over(alloc, names, classes.as_slice())?;
            Ok(Axiom::Disjoint(classes))
        }
        IriAxiom::SubRole(chain, property) => {
            let chain = numbers_in(alloc, &names.roles, chain.as_slice())?;
            Ok(Axiom::SubRole(chain, number_in(&names.roles, property)))
        }
        IriAxiom::EquivalentRoles(iris) => {
            let iris = numbers_in(alloc, &names.roles, iris.as_slice())?;
            Ok(Axiom::EquivalentRoles(iris))
        }
        IriAxiom::Transitive(property) => {
            Ok(Axiom::Transitive(number_in(&names.roles, property)))
        }
        IriAxiom::Reflexive(property) => Ok(Axiom::Reflexive(number_in(&names.roles, property))),
        IriAxiom::Domain(property, class) => {
            let class = expr_over(alloc, names, class)?;
            Ok(Axiom::Domain(number_in(&names.roles, property), class))
        }
    }
}
