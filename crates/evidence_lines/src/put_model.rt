//! Lines of a model that are written.

ghost use Rattle.std.specs.Prelude.{◌≡◌, ◌++◌, ◌+◌, ◌<◌, ◌^◌, OnOk};
ghost use Rattle.line_fields.specs.Lines.{line, spaced};
ghost use Rattle.evidence_lines.specs.Model.{element_fields, pair_fields, class_fields, property_fields};

use line_fields::{end_line, put_number};
use std::alloc::AllocError;
use text_names::Bytes;

fn put_elements(text: &mut Bytes, elements: &[u32]) -> Result<(), AllocError>
    ensures { OnOk result (text.new ≡ text.old ++ spaced (element_fields elements.now)) }
{
    for element in elements {
        put_number(text, u64::from(*element))?;
    }
    Ok(())
}

/// Puts the line of the class with this place, from 0.
pub fn put_members(text: &mut Bytes, place: u64, members: &[u32]) -> Result<(), AllocError>
    requires { place + 2 < 2 ^ 64 }
    ensures { OnOk result (text.new ≡ text.old ++ line (class_fields place members.now)) }
{
    text.append(b"class")?;
    put_number(text, place + 2)?;
    put_elements(text, members)?;
    end_line(text)
}

fn put_pair_list(text: &mut Bytes, pairs: &[(u32, u32)]) -> Result<(), AllocError>
    ensures { OnOk result (text.new ≡ text.old ++ spaced (pair_fields pairs.now)) }
{
    for pair in pairs {
        put_number(text, u64::from(pair.0))?;
        put_number(text, u64::from(pair.1))?;
    }
    Ok(())
}

/// Puts the line of the property with this place, from 0.
pub fn put_pairs(text: &mut Bytes, place: u64, pairs: &[(u32, u32)]) -> Result<(), AllocError>
    ensures { OnOk result (text.new ≡ text.old ++ line (property_fields place pairs.now)) }
{
    text.append(b"role")?;
    put_number(text, place)?;
    put_pair_list(text, pairs)?;
    end_line(text)
}
