//! The laws of a cluster, whatever is asked of it. Each is the contract of a function that does nothing.

ghost use Rattle.hlc_core.specs.Calls.{CallsAreSteps, CallsKeepThePromise, LossesAreSteps, NewIsFirst, SoundKeepsThePromise};
ghost use Rattle.hlc_core.specs.Laws.{AnswersStep, DriftsStayWithin, EveryScheduleKeepsThePromise, NewIsSound, OneStateFollows, SomeStateFollows, StampsAreExplained, StaysSound, TablesAreUnique, TablesConverge, TablesShowGreatest};
ghost use Rattle.hlc_core.specs.Replay.{ClustersReplay, LawfulIsReached, ReplayGivesEqualHistory};

/// After any list of requests, refused ones and lost messages among them, there is one state that follows: its history is
/// lawful, and its stamps are the least that any assignment gives which rises along happened-before and is never behind
/// the readings.
///
/// What a cluster answers is the step of the request, so this is the state that it shows. Only a request for which
/// memory was refused counts as not asked.
pub fn state_after_requests()
    ensures answers { AnswersStep }
    ensures new { NewIsSound }
    ensures sound { StaysSound }
    ensures exists { SomeStateFollows }
    ensures one { OneStateFollows }
{}

/// Tables converge: nodes that know the same writes show the same entry of every key, in whatever order they learnt them.
pub fn tables_converge()
    ensures { TablesConverge }
{}

/// The headline. Whatever is asked of a new cluster, in whatever order, with refusals, losses and repeats: each event's
/// stamp is the least that any assignment can give which rises strictly along happened-before and is never behind the
/// readings; a chain of `c` + 1 events, each a direct predecessor of the next and the first with the reading `l`, forces
/// it; and each node's table has the keys of the writes that were accepted or delivered there, each once, in the order in
/// which they became known, each with its write of greatest rank, and nothing else. There is only one such table:
/// `one_table`.
///
/// Every lawful schedule is among these: `replay_gives_equal_history`.
///
/// `hlc_explain::chain` answers with such a chain, the event's own (`stamps_are_explained`), and `Cluster::table` with the very
/// table.
pub fn every_schedule()
    ensures { EveryScheduleKeepsThePromise }
{}

/// Which chain it is, and what it forces: if the promise is kept, the event's own chain (its forcing events followed back to the
/// origin) is such a chain for its stamp, and every allowed assignment gives the event at least that stamp.
pub fn stamps_are_explained()
    ensures { StampsAreExplained }
{}

/// What a table shows of a key: in every sound state, and so after any requests, exactly the known write of the key that none
/// exceeds in rank.
pub fn tables_show_greatest()
    ensures { TablesShowGreatest }
{}

/// The headline, for whoever calls a `Cluster`. Call `act`, `ask` and `lose` on a new one, as often and in whatever order you
/// like, whatever comes of each call: by what the calls promise one by one, the state follows the steps that they asked for, and
/// it keeps the promise. A request for which memory was refused counts as not asked.
///
/// What `lose` promises is its step, whether the message was live or not, as what `act` promises is its own
/// (`state_after_requests`). Each call also leaves a sound state, and a sound state keeps the promise.
pub fn calls_keep_the_promise()
    ensures losses { LossesAreSteps }
    ensures new { NewIsFirst }
    ensures steps { CallsAreSteps }
    ensures promise { CallsKeepThePromise }
    ensures sound { SoundKeepsThePromise }
{}

/// With a limit, no event is ahead of its reading by more than that, whatever is asked. The headline stands with a limit as
/// without one: what is too far ahead is refused, and a refused request is no event.
pub fn drifts_stay_within()
    ensures { DriftsStayWithin }
{}

/// A node has only one table. Any rows whose keys are those of the known writes, each once, in the order in which they
/// became known, each with its known write of greatest rank, are the rows that the node has. So no row can be missing or
/// foreign, stand twice or stand elsewhere.
pub fn one_table()
    ensures { TablesAreUnique }
{}

/// A replay gives an equal history. The events of a lawful history with least stamps, asked again in order of acceptance,
/// are all accepted by a new cluster of the same nodes and capacity, and leave an equal history: also under a limit, if no
/// event is ahead of its reading by more than that. No stamp is asked for:
/// each comes out as it was.
///
/// The history of every cluster is such a history, whatever was asked, refused or lost on the way to it, and so it is
/// given by its own replay. And every such history is left by some requests: what `every_schedule` promises of any
/// requests it promises of every lawful schedule.
pub fn replay_gives_equal_history()
    ensures equal { ReplayGivesEqualHistory }
    ensures clusters { ClustersReplay }
    ensures reached { LawfulIsReached }
{}
