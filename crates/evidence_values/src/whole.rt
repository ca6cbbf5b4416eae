//! What is known of all evidence.

ghost use Rattle.std.specs.Prelude.{◌<◌, ◌^◌, length};
ghost use Rattle.std.specs.List.{AllByRecursion};
ghost use Rattle.evidence_lines.specs.Omitted.{ArePlaceNumbers};
ghost use Rattle.evidence_text.specs.EvidenceText.{omitted_list, AreModelNumbers, AreBodyNumbers, IsEvidenceValue};

use crate::known::each;
use el_logic::Interp;
use evidence_text::{Body, Evidence};
use ofn_axiom::SideOmitted;

#[tactic(auto, using(crate::proofs::Lists::omitted_count, crate::proofs::Lists::place_numbers))]
fn omitted_are_known(omitted: &SideOmitted)
    ensures count { length (omitted_list omitted.now) < 2 ^ 64 }
    ensures places { AllByRecursion ArePlaceNumbers (omitted_list omitted.now) }
{
    let left = omitted.left.as_slice();
    let right = omitted.right.as_slice();
    let _count = left.len() + right.len();
    each(left);
    each(right);
}

fn model_is_known(model: &Interp)
    ensures { AreModelNumbers model.now }
{
    let _size = model.size;
    each(model.classes.as_slice());
    each(model.roles.as_slice());
}

fn body_is_known(body: &Body)
    ensures { AreBodyNumbers body.now }
{
    match body {
        Body::Diagnosis {
            removed,
            model,
            journal,
        } => {
            each(removed.as_slice());
            model_is_known(model);
            each(journal.as_slice());
        }
        Body::Refusal { steps } => each(steps.as_slice()),
    }
}

/// All evidence in memory has numbers of their types, and names in UTF-8. So evidence that has a
/// text is read again from it. It goes over the evidence once, and changes nothing.
pub fn evidence_is_a_value(evidence: &Evidence)
    ensures { IsEvidenceValue evidence.now }
{
    omitted_are_known(&evidence.omitted);
    each(evidence.nodes.as_slice());
    each(evidence.roles.as_slice());
    body_is_known(&evidence.body);
}
