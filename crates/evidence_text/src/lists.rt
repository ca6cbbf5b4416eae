//! What one line is in each section.

ghost use Rattle.std.specs.Prelude.{◌≡◌};
ghost use Rattle.std.specs.Option.{option_copied};
ghost use Rattle.evidence_text.specs.Reading.{may_follow};

use crate::sections::LineEntry;
use accuse_core::Entry;
use derivation::Step;
use evidence_lines::{
    NodeLine, RoleLine, SidedOmitted, entry_of, node_of, omitted_before, omitted_of, put_entry,
    put_node, put_omitted, put_role, put_step, role_of, step_of,
};
use line_fields::Fields;
use std::alloc::{AllocError, Global};
use text_names::Bytes;

impl LineEntry for Step {
    ghost use Rattle.evidence_lines.specs.Steps.{step_fields};
    ghost use Rattle.evidence_lines.specs.StepReading.{step_of};
    ghost use Rattle.evidence_text.specs.Reading.{any_order};

    ghost form = { any_order step_of };

    ghost spell = { step_fields };

    fn read(
        _alloc: Global,
        _before: Option<&Step>,
        fields: Fields<'_>,
    ) -> Result<Option<Step>, AllocError> {
        Ok(step_of(fields))
    }

    fn put(&self, text: &mut Bytes) -> Result<(), AllocError> {
        put_step(text, self)
    }
}

impl LineEntry for Entry {
    ghost use Rattle.evidence_lines.specs.Journal.{entry_fields};
    ghost use Rattle.evidence_lines.specs.Journal.{entry_of};
    ghost use Rattle.evidence_text.specs.Reading.{any_order};

    ghost form = { any_order entry_of };

    ghost spell = { entry_fields };

    fn read(
        _alloc: Global,
        _before: Option<&Entry>,
        fields: Fields<'_>,
    ) -> Result<Option<Entry>, AllocError> {
        Ok(entry_of(fields))
    }

    fn put(&self, text: &mut Bytes) -> Result<(), AllocError> {
        put_entry(text, self)
    }
}

impl LineEntry for NodeLine {
    ghost use Rattle.evidence_lines.specs.Names.{node_fields};
    ghost use Rattle.evidence_lines.specs.Names.{node_of};
    ghost use Rattle.evidence_text.specs.Reading.{any_order};

    ghost form = { any_order node_of };

    ghost spell = { node_fields };

    fn read(
        alloc: Global,
        _before: Option<&NodeLine>,
        fields: Fields<'_>,
    ) -> Result<Option<NodeLine>, AllocError> {
        node_of(alloc, fields)
    }

    fn put(&self, text: &mut Bytes) -> Result<(), AllocError> {
        put_node(text, self)
    }
}

impl LineEntry for RoleLine {
    ghost use Rattle.evidence_lines.specs.Names.{role_fields};
    ghost use Rattle.evidence_lines.specs.Names.{role_of};
    ghost use Rattle.evidence_text.specs.Reading.{any_order};

    ghost form = { any_order role_of };

    ghost spell = { role_fields };

    fn read(
        alloc: Global,
        _before: Option<&RoleLine>,
        fields: Fields<'_>,
    ) -> Result<Option<RoleLine>, AllocError> {
        role_of(alloc, fields)
    }

    fn put(&self, text: &mut Bytes) -> Result<(), AllocError> {
        put_role(text, self)
    }
}

fn may_follow(before: Option<&SidedOmitted>, omitted: &SidedOmitted) -> bool
    ensures { result ≡ may_follow (option_copied before.entry) omitted.now }
{
    match before {
        None => true,
        Some(before) => omitted_before(before, omitted),
    }
}

impl LineEntry for SidedOmitted {
    ghost use Rattle.evidence_lines.specs.Omitted.{omitted_fields};
    ghost use Rattle.evidence_text.specs.Reading.{ordered_omitted};

    ghost form = { ordered_omitted };

    ghost spell = { omitted_fields };

    fn read(
        _alloc: Global,
        before: Option<&SidedOmitted>,
        fields: Fields<'_>,
    ) -> Result<Option<SidedOmitted>, AllocError> {
        let Some(omitted) = omitted_of(fields) else {
            return Ok(None);
        };
        if may_follow(before, &omitted) {
            Ok(Some(omitted))
        } else {
            Ok(None)
        }
    }

    fn put(&self, text: &mut Bytes) -> Result<(), AllocError> {
        put_omitted(text, self)
    }
}
