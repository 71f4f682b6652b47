//! The law of bit sets: a function that does nothing when it runs, with a theorem as its contract.
ghost use Rattle.strip_mask.specs.Laws.{AddsItsValue, ClosesTheGap, EmptyHasNone, HasLeastMember, MadeByMembers, MembersBelow64, MembersRise, NoMoreThanTheWhole, OneFewer, SameMembersSameSet, SumsAddUp};

/// Sets with the same members are equal. Sizes, sums and the set operations follow from the members.
pub fn sets_are_by_members()
    ensures same { SameMembersSameSet }
    ensures made { MadeByMembers }
    ensures closed { ClosesTheGap }
    ensures fewer { OneFewer }
    ensures adds { AddsItsValue }
    ensures apart { SumsAddUp }
    ensures part { NoMoreThanTheWhole }
    ensures empty { EmptyHasNone }
    ensures below { MembersBelow64 }
    ensures least { HasLeastMember }
    ensures rising { MembersRise }
{}
