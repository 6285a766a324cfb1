// The theory of earliest orders: each function names a theorem, which the crate then has to prove.
ghost use Rattle.book.specs.Runs.{RunBegins, RunGoesOn, OneAsideForEach, OneItemMarked, SelectedByOwnRun};
ghost use Rattle.book.specs.Levels.{LevelsDecideSelected, LevelsDecideAccepted};
ghost use Rattle.book.specs.Tables.{TablesDecideItem, TablesDecideAcceptance};
ghost use Rattle.book.specs.Earliest.{AlwaysEnding, ItemsAreOneOfThree, DecisionsLast, EndDecides, RightIfDue, RightRuleOrdersDue, OrderRightIfDue, TooEarlyIsWrong};
ghost use Rattle.book.specs.Checks.{OneOutcome, RefusedByTopmost, AcceptedStaysSound};
ghost use Rattle.book.specs.Acceptance.{AcceptedCalls, AcceptedWatchCalls, CallsAreRefused, WatchCallsAreRefused, NumbersOfLines, TagsAndStates, SixtyFourDeep, HistoryWithinLimits};
ghost use Rattle.book.specs.History.{OneHistory, SomeHistory, HistoryIsSound};
ghost use Rattle.book.specs.PromiseLaws.{OneAnswer, OneRun, SomeAnswer, AnswersAgree, OrdersAreTheDue, RecordsAreTrue, RecordsRise, NoneIsEarlier, TotalsAreTrue, ListsAreKept};
ghost use Rattle.book.specs.Shown.{ShownIsEnough};
ghost use Rattle.book.specs.Watch.{VerdictsMean, OneVerdict, EndVerdict, VerdictsOfRuns, OneWatchRun, SomeWatchAnswer, WatchAnswersAgree};

// Runs ----------------------------------------------------------------------------------------------------------

// How a run begins, and what an open, a close and the end do to it.
pub fn run_goes_on_stands()
    ensures begins { RunBegins }
    ensures goes { RunGoesOn }
{}

// A run has set aside one state for each open item.
#[tactic(auto, using(crate::proofs::Steps::one_aside_for_each))]
pub fn one_aside_for_each_stands()
    ensures { OneAsideForEach }
{}

// In the run of an item, that item alone is entered by mark.
pub fn one_item_marked_stands()
    ensures { OneItemMarked }
{}

// An item is selected just if it is opened and its run ends in an accepting state.
pub fn selected_by_own_run_stands()
    ensures { SelectedByOwnRun }
{}

// Levels and tables ---------------------------------------------------------------------------------------------

// Reach sets decide, level by level and both ways, what every and what some ending makes of an opened item, and
// whether the catalogue is accepted.
pub fn levels_decide_stands()
    ensures selected { LevelsDecideSelected }
    ensures accepted { LevelsDecideAccepted }
{}

// With a table that fits, two computed tests decide whether an opened item is due, dropped or held, and whether all,
// none or some endings are accepted.
#[tactic(auto, using(crate::proofs::Tables::tables_decide_item, crate::proofs::Tables::tables_decide_acceptance))]
pub fn tables_decide_stands()
    ensures item { TablesDecideItem }
    ensures acceptance { TablesDecideAcceptance }
{}

// Due, dropped, held --------------------------------------------------------------------------------------------

// There is always an ending.
#[tactic(auto, using(crate::proofs::Earliest::always_ending))]
pub fn always_ending_stands()
    ensures { AlwaysEnding }
{}

// An opened item is one, and not two, of due, dropped and held.
#[tactic(auto, using(crate::proofs::Earliest::items_are_one_of_three))]
pub fn one_of_three_stands()
    ensures { ItemsAreOneOfThree }
{}

// Only an opened item is due, and what is due or dropped stays so.
pub fn decisions_last_stands()
    ensures { DecisionsLast }
{}

// After the end just the selected items are due.
pub fn end_decides_stands()
    ensures { EndDecides }
{}

// Right rules and right orders ----------------------------------------------------------------------------------

// A rule is right just if it orders nothing that is not due then.
pub fn right_if_due_stands()
    ensures { RightIfDue }
{}

// What a right rule ordered was opened and due then, and is due now.
pub fn right_rule_orders_due_stands()
    ensures { RightRuleOrdersDue }
{}

// A single order is right just if its item is due, whoever gives it.
pub fn order_right_if_due_stands()
    ensures { OrderRightIfDue }
{}

// An order of an item that is not due is wrong in some catalogue that the events begin.
#[tactic(auto, using(crate::proofs::Earliest::too_early_is_wrong))]
pub fn too_early_is_wrong_stands()
    ensures { TooEarlyIsWrong }
{}

// Checks --------------------------------------------------------------------------------------------------------

// A call is accepted, or refused with one line, and not both.
pub fn one_outcome_stands()
    ensures { OneOutcome }
{}

// A call is refused with the line that is met and has no line above it that is.
#[tactic(auto, using(crate::proofs::Checks::refused_by_topmost))]
pub fn refused_by_topmost_stands()
    ensures { RefusedByTopmost }
{}

// An accepted call breaks no rule of the catalogue.
pub fn accepted_stays_sound_stands()
    ensures { AcceptedStaysSound }
{}

// Just when a call is accepted.
pub fn accepted_calls_stands()
    ensures scan { AcceptedCalls }
    ensures watch { AcceptedWatchCalls }
{}

// What each call is refused with.
#[tactic(auto, using(crate::proofs::Acceptance::calls_are_refused, crate::proofs::Acceptance::watch_calls_are_refused))]
pub fn calls_are_refused_stands()
    ensures scan { CallsAreRefused }
    ensures watch { WatchCallsAreRefused }
{}

// The numbers of the refusals down the table, the numbers of tags and states, and the depth of items.
pub fn numbers_stands()
    ensures lines { NumbersOfLines }
    ensures limits { TagsAndStates }
    ensures depth { SixtyFourDeep }
{}

// The events so far ---------------------------------------------------------------------------------------------

// Calls bring one list of events at most.
#[tactic(auto, using(crate::proofs::History::one_history))]
pub fn one_history_stands()
    ensures { OneHistory }
{}

// Any calls bring some list of events.
#[tactic(auto, using(crate::proofs::Telling::some_history))]
pub fn some_history_stands()
    ensures { SomeHistory }
{}

// The events that calls bring break no rule of the catalogue.
#[tactic(auto, using(crate::proofs::History::history_is_sound))]
pub fn history_is_sound_stands()
    ensures { HistoryIsSound }
{}

// The events that calls bring stay within the limits.
#[tactic(auto, using(crate::proofs::Acceptance::history_within_limits))]
pub fn history_within_limits_stands()
    ensures { HistoryWithinLimits }
{}

// The promise of a scan -----------------------------------------------------------------------------------------

// A call of a scan has one answer and leaves one list, and so the same calls give the same exchanges throughout.
pub fn one_answer_stands()
    ensures call { OneAnswer }
    ensures run { OneRun }
{}

// Where a table fits, any calls have answers that keep the promise.
pub fn some_answer_stands()
    ensures { SomeAnswer }
{}

// An answer is Ok just if the call is accepted, and Err with a line just if it is refused with it.
pub fn answers_agree_stands()
    ensures { AnswersAgree }
{}

// The orders so far are those of just the due items, each once; after the end, of just the selected ones.
pub fn orders_are_the_due_stands()
    ensures { OrdersAreTheDue }
{}

// Each order record tells its item, the event that opened it and the event at which it became due.
#[tactic(auto, using(crate::proofs::Records::records_are_true))]
pub fn records_are_true_stands()
    ensures { RecordsAreTrue }
{}

// The orders of one call stand first in its list, by rising item number.
pub fn records_rise_stands()
    ensures { RecordsRise }
{}

// Whoever gives a right order, by whatever rule, gives it no earlier than a scan that keeps the promise.
pub fn none_is_earlier_stands()
    ensures { NoneIsEarlier }
{}

// The totals after an accepted call count the items of each kind.
pub fn totals_are_true_stands()
    ensures { TotalsAreTrue }
{}

// No call orders more than 129 items; the other records stay, and so does a list at a refusal.
#[tactic(auto, using(crate::proofs::Room::lists_are_kept))]
pub fn lists_are_kept_stands()
    ensures { ListsAreKept }
{}

// What a scan shows for an accepted call is enough for the promise.
pub fn shown_is_enough_stands()
    ensures { ShownIsEnough }
{}

// The promise of a watch ----------------------------------------------------------------------------------------

// What a verdict says of the catalogues that the events begin.
pub fn verdicts_mean_stands()
    ensures { VerdictsMean }
{}

// Events that break no rule have one verdict at most.
#[tactic(auto, using(crate::proofs::Watch::one_verdict))]
pub fn one_verdict_stands()
    ensures { OneVerdict }
{}

// After the end the verdict is yes just if the catalogue is accepted.
pub fn end_verdict_stands()
    ensures { EndVerdict }
{}

// The verdict of an accepted call is about the events with its own.
pub fn verdicts_of_runs_stands()
    ensures { VerdictsOfRuns }
{}

// The same calls of a watch have the same answers throughout.
pub fn one_watch_run_stands()
    ensures { OneWatchRun }
{}

// Where a table fits, any calls of a watch have answers that keep the promise.
pub fn some_watch_answer_stands()
    ensures { SomeWatchAnswer }
{}

// An answer of a watch is Ok just if the call is accepted.
pub fn watch_answers_agree_stands()
    ensures { WatchAnswersAgree }
{}
