//! The laws of the line's definitions, as functions whose contracts name them.
ghost use Rattle.line.specs.Laws.{AnswersAreToldApart, EachAddressHasItsOwnWord, Each-collect-ends-by-grant-2n+9, EachPlaceHasItsOwnTray, EachPostEndsByItsThirteenthGrant};

/// Every address of a line is a word of its own, among the words that the line takes up.
#[tactic(auto, using(crate::proofs::Places::each_address_has_its_own_word))]
pub fn each_address_has_its_own_word()
    ensures { EachAddressHasItsOwnWord }
{}

/// Every place of a line is a tray of its own, among the trays that the line takes up.
#[tactic(auto, using(crate::proofs::Places::each_place_has_its_own_tray))]
pub fn each_place_has_its_own_tray()
    ensures { EachPlaceHasItsOwnTray }
{}

/// Whatever words its grants read, a post ends by its thirteenth, and tells how many it had.
#[tactic(auto, using(crate::proofs::Endings::each_post_ends_by_its_thirteenth_grant))]
pub fn each_post_ends_by_its_thirteenth_grant()
    ensures { EachPostEndsByItsThirteenthGrant }
{}

/// Whatever words its grants read, a collect over n lanes ends by grant 2n + 9, and an empty one with grant n; it tells
/// how many it had.
pub fn each_collect_ends_by_grant_2n_plus_9()
    ensures { Each-collect-ends-by-grant-2n+9 }
{}

/// No two answers of a grant have the same number and values.
#[tactic(auto, using(crate::proofs::Telling::answers_are_told_apart))]
pub fn answers_are_told_apart()
    ensures { AnswersAreToldApart }
{}
