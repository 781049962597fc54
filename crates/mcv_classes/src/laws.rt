//! The laws of classes, which hold of the definitions alone.

ghost use Rattle.mcv_classes.specs.Laws.{AlikeAreAnswered, AlikeAreReplied, AlikeAreSent, MembersAreInside, NoMemberNoRest, OneClass, RestsHaveClasses};

/// Two rests of one class have the same legs and the same replies, for every operation, in every era.
pub fn alike_are_treated_alike()
    ensures sent { AlikeAreSent }
    ensures replied { AlikeAreReplied }
    ensures answered { AlikeAreAnswered }
{}

/// A rest has one class, and this class a member; the member of a class is in it, and a class without a member has
/// no rests.
pub fn classes_are_by_members()
    ensures one { OneClass }
    ensures member { MembersAreInside }
    ensures none { NoMemberNoRest }
    ensures some { RestsHaveClasses }
{}
