//! What is known of what lines of evidence say.

ghost use Rattle.std.specs.Prelude.{◌<◌, ◌^◌};
ghost use Rattle.evidence_lines.specs.Journal.{AreEntryNumbers};
ghost use Rattle.evidence_lines.specs.Steps.{AreStepNumbers};

use crate::known::{Known, each};
use accuse_core::Entry;
use derivation::Step;
use el_logic::{Numbers, Pairs};
use evidence_lines::{NodeLine, RoleLine};
use evidence_text::Removed;
use ofn_axiom::Omitted;

impl Known for u32 {
    ghost use Rattle.std.specs.Prelude.{◌<◌, ◌^◌};

    ghost known = { λ number. number < 2 ^ 32 };

    fn read(&self) {
        let _number = *self;
    }
}

impl Known for (u32, u32) {
    ghost use Rattle.std.specs.Prelude.{◌<◌, ◌^◌};

    ghost known = { λ pair. (pair.0 < 2 ^ 32) × (pair.1 < 2 ^ 32) };

    fn read(&self) {
        let (_one, _other) = *self;
    }
}

impl Known for Numbers {
    ghost use Rattle.evidence_lines.specs.Model.{AreElementNumbers};

    ghost known = { AreElementNumbers };

    #[tactic(auto, using(crate::proofs::Lists::element_numbers))]
    fn read(&self) {
        each(self.as_slice());
    }
}

impl Known for Pairs {
    ghost use Rattle.evidence_lines.specs.Model.{ArePairNumbers};

    ghost known = { ArePairNumbers };

    #[tactic(auto, using(crate::proofs::Lists::pair_numbers))]
    fn read(&self) {
        each(self.as_slice());
    }
}

// The numbers of a step.
fn step_numbers(step: Step)
    ensures { AreStepNumbers step }
{
    let _ = step;
}

impl Known for Step {
    ghost use Rattle.evidence_lines.specs.Steps.{AreStepNumbers};

    ghost known = { AreStepNumbers };

    fn read(&self) {
        step_numbers(*self);
    }
}

// The numbers of an entry.
fn entry_numbers(entry: Entry)
    ensures { AreEntryNumbers entry }
{
    let _ = entry;
}

impl Known for Entry {
    ghost use Rattle.evidence_lines.specs.Journal.{AreEntryNumbers};

    ghost known = { AreEntryNumbers };

    fn read(&self) {
        entry_numbers(*self);
    }
}

// The place of an axiom that is left out.
fn place_numbers(omitted: Omitted)
    ensures line { omitted.place.line < 2 ^ 64 }
    ensures column { omitted.place.column < 2 ^ 64 }
{
    let _ = omitted;
}

impl Known for Omitted {
    ghost use Rattle.std.specs.Prelude.{◌<◌, ◌^◌};

    ghost known = { λ omitted. (omitted.place.line < 2 ^ 64) × (omitted.place.column < 2 ^ 64) };

    fn read(&self) {
        place_numbers(*self);
    }
}

impl Known for NodeLine {
    ghost use Rattle.evidence_lines.specs.Names.{IsNodeValue};

    ghost known = { IsNodeValue };

    fn read(&self) {
        match self {
            NodeLine::Top => {}
            NodeLine::Bottom => {}
            NodeLine::Class(name) => {
                let _bytes = name.bytes();
            }
            NodeLine::And(one, other) => {
                let (_one, _other) = (*one, *other);
            }
            NodeLine::Exists(role, filler) => {
                let (_role, _filler) = (*role, *filler);
            }
        }
    }
}

impl Known for RoleLine {
    ghost use Rattle.evidence_lines.specs.Names.{IsRoleValue};

    ghost known = { IsRoleValue };

    fn read(&self) {
        match self {
            RoleLine::Property(name) => {
                let _bytes = name.bytes();
            }
            RoleLine::Part {
                side: _,
                axiom,
                length,
            } => {
                let (_axiom, _length) = (*axiom, *length);
            }
        }
    }
}

impl Known for Removed {
    ghost use Rattle.evidence_text.specs.EvidenceText.{AreRemovedNumbers};

    ghost known = { AreRemovedNumbers };

    fn read(&self) {
        let _row = self.row;
        each(self.steps.as_slice());
    }
}
