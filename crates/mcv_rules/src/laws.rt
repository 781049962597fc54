//! The laws of routes: what holds of the definitions alone, and so of all code that meets them.

ghost use Rattle.mcv_rules.specs.Laws.{AllSyncReplies, AnswersAreTrue, DeletesSearchOnErrors, HitIsPlanned, LaunchedIsPlanned, OneReplyStays, PlansAreSound, ReachableIsClosed, RepliesAreAlike, ReplyIsOneOf, ReplyIsPlanned, ReplyStays, SentStays, TheLastOfTheWorst};
ghost use Rattle.mcv_rules.specs.Rows.{AllAsyncRow, AllInitialRow, AllSyncRow, ErrorRow, FailoverReplies, FailoverRow, FirstPolicyCounts, LegsAreOfPools, LegsAreSentOnce, LegsComeInOrder, LegsHaveTheOperation, LongestPrefixCounts, MigrateAfter, MigrateBefore, MigrateDeletes, MigrateFirst, MigrateSecond, MissFailoverReads, MissFailoverReplies, MissFailoverWrites, NullRow, OperationSelectorRow, OwnOperation, PoolRow, PrefixSelectorRow, ShadowsAreMarked, WarmUpReads, WarmUpWrites};
ghost use Rattle.mcv_rules.specs.Times.{RepliesAreStable, TimeAfterError, TimeAfterMiss, TimeOfAllSync};

/// The plan of a route sends the legs and gives the replies that its handles say.
pub fn plans_are_exact()
    ensures launched { LaunchedIsPlanned }
    ensures reply { ReplyIsPlanned }
    ensures alike { RepliesAreAlike }
    ensures hits { HitIsPlanned }
{}

/// In every plan of a route each leg has a symbol and a place of its own, shadows alone aren't
/// counted, and nothing is Good but what a server says; that of a delete, shadows aside, goes on
/// after errors alone.
pub fn plans_are_sound()
    ensures sound { PlansAreSound }
    ensures deletes { DeletesSearchOnErrors }
{}

/// A later outcome changes no reply and takes back no leg.
pub fn later_outcomes_only_add()
    ensures reply { ReplyStays }
    ensures sent { SentStays }
{}

/// An answer has the outcome of the leg whose reply it is; the default reply is Soft, and ErrorRoute's an Error.
pub fn answers_are_true()
    ensures { AnswersAreTrue }
{}

/// Outcomes are reachable exactly when each is of a leg that is sent at them.
pub fn reachable_is_closed()
    ensures { ReachableIsClosed }
{}

/// The one reply is one of the replies, and stays. An AllSyncRoute gives the worst of its children's, and among
/// equals the one that came last.
pub fn the_last_reply_is_one()
    ensures one { ReplyIsOneOf }
    ensures stays { OneReplyStays }
    ensures last { TheLastOfTheWorst }
    ensures all_sync { AllSyncReplies }
{}

/// When a handle has its answer, by its children.
pub fn answers_come_with_children()
    ensures all { TimeOfAllSync }
    ensures error { TimeAfterError }
    ensures miss { TimeAfterMiss }
    ensures stable { RepliesAreStable }
{}

/// No leg is sent twice, and each is that of a PoolRoute at its position, to its server at the index that the choice
/// gives its symbol; what is sent below a shadow is marked so. A leg has the operation that is asked, but for the
/// add of a warm-up.
pub fn legs_are_of_pools()
    ensures once { LegsAreSentOnce }
    ensures pools { LegsAreOfPools }
    ensures shadows { ShadowsAreMarked }
    ensures operation { LegsHaveTheOperation }
    ensures own { OwnOperation }
{}

/// The legs come in the order of their positions, each before all later ones.
pub fn legs_come_in_order()
    ensures { LegsComeInOrder }
{}

/// What each handle sends by its children, in the order of the table of handles.
pub fn handles_send_by_their_rows()
    ensures pool { PoolRow }
    ensures null { NullRow }
    ensures error { ErrorRow }
    ensures all_sync { AllSyncRow }
    ensures all_initial { AllInitialRow }
    ensures all_async { AllAsyncRow }
    ensures failover { FailoverRow }
    ensures miss_failover_reads { MissFailoverReads }
    ensures miss_failover_writes { MissFailoverWrites }
    ensures warm_up_reads { WarmUpReads }
    ensures warm_up_writes { WarmUpWrites }
    ensures migrate_before { MigrateBefore }
    ensures migrate_deletes { MigrateDeletes }
    ensures migrate_first { MigrateFirst }
    ensures migrate_second { MigrateSecond }
    ensures migrate_after { MigrateAfter }
    ensures prefix_selector { PrefixSelectorRow }
    ensures operation_selector { OperationSelectorRow }
{}

/// Where a search stops: its replies are those of the child there.
pub fn searches_reply_where_they_stop()
    ensures failover { FailoverReplies }
    ensures miss_failover { MissFailoverReplies }
{}

/// Which policy a selector takes: that of the longest prefix, and the operation's first one.
pub fn policies_are_selected()
    ensures prefixes { LongestPrefixCounts }
    ensures operations { FirstPolicyCounts }
{}
