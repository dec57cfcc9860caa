//! What follows from the contracts, for each line of a form.
ghost use Rattle.instants_fields.specs.Laws as Laws;

/// In a line `{"NAME":"TEXT"}` the member of that name is the text, where the bytes of both stand for themselves.
#[tactic(auto, using(crate::proofs::LawLemmas::gives_text))]
pub fn text_of_one_member()
    ensures { Laws.EachGivesText }
{}
