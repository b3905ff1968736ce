// The help texts, and the version.

// The version, and the line of the kit that the program is proved with.
pub const VERSION: &str = "1.0.0 (rattle-kit-13f logic dac8208d650f15bf)";

pub const ABOUT: &str =
    "A replicated key-value store in one process, whose writes are stamped by hybrid logical clocks";

pub const FIRST_STEPS: &str = "\
Each node of the store has a clock of its own. A script says what happens where: a record a line, with the word for what
to do, the node, what its clock reads, and the rest. The answer to a write is an event and its stamp, a pair of numbers.

Example:
  echo 'write,0,10,cart,apples' | hlc run --nodes 2 --capacity 16
answers `event,0,10,0`: that node 0 wrote `apples` under the key `cart` is event 0, with the stamp (10, 0).

`hlc run --help` has all records, and `hlc COMMAND --help` an example of each command.";

pub const RUN: &str = "Answers a script of records from standard input, a row for each";

pub const RECORDS: &str = "\
A record is a row of CSV:
  write,NODE,READING,KEY,VALUE    the node NODE, whose clock reads READING, writes VALUE under KEY
  erase,NODE,READING,KEY          it erases KEY
  send,NODE,READING,TARGET,KEY    it sends its entry of KEY to the node TARGET, in a message
  sync,NODE,READING,TARGET        it sends all its entries to the node TARGET, in one message
  deliver,NODE,READING,SEND       it takes in the message of the event SEND, which stays live
  pull,NODE,READING,KEY,VALUE     it takes in its oldest live message and ends it, or writes if there is none
  lose,SEND                       the message of the event SEND is lost
  inbox,NODE                      which live messages are addressed to NODE
  get,NODE,KEY                    what NODE knows of KEY
  table,NODE                      what NODE knows
  explain,EVENT                   the events that explain why the stamp of EVENT isn't lower
  check,EVENT,FIRST,..,EVENT      whether the events after the first field explain the stamp of EVENT
  relation,EVENT,OTHER            whether EVENT happened before OTHER, after it, or neither
  influenced,EVENT                the events that EVENT happened before
  why,EVENT,OTHER                 how OTHER came to know of EVENT: a shortest path of direct predecessors
  tainted,EVENT                   the events whose stamps would be lower if the clock of EVENT had read 0
  drift,NODE                      how far the stamps of NODE ran ahead of its clock, and why
  snapshot,L,C,NODE               what NODE knows from its events with stamps of at most (L, C)

With `--limit D` an event whose L would be more than D above READING is refused, with the row `refused,too-far-ahead`.

Example:
  echo 'write,0,10,a,x' | hlc run --nodes 2 --capacity 16
answers `event,0,10,0`: the write is event 0, with the stamp (10, 0).";

pub const DRAW: &str = "Draws the history that a script from standard input leaves, as SVG";

pub const PICTURE: &str = "\
The script is that of `hlc run`. Time runs down: each node has a lane, each event a dot on it with its number, and beside the dots
a row. An arrow runs from a send to each delivery of its message. With `--explain E` the chain is marked that `explain,E` answers.

The picture has the events from F to T, at most 500 if T isn't given. With `--around A` it has the N rows about event A, as many above it
as below if there are so many, and 40 if `--rows` isn't given. With `--only-chain` it has nothing but the chain that `--explain` names, with
a row for how many events lie between two of it. If there is no event E, F or A, it says so, and the status is 1.

Example:
  echo 'write,0,10,cart,apples' | hlc draw --nodes 2 --capacity 16 > cart.svg
draws one dot, on the lane of node 0.";

pub const TRACE: &str =
    "Writes the history that a script from standard input leaves as a log, for `hlc audit`";

pub const HISTORY: &str = "\
The script is that of `hlc run`. The log has a row for each event, with its stamp and a label that says what happened. So
`hlc audit` finds each stamp to be the least: put the stamps of your own clock in their place, and it marks them.

With `--vector` an event has two lines, as ShiViz reads them: its node with its vector clock, and the row.

Example:
  echo 'write,0,10,cart,apples' | hlc trace --nodes 2 --capacity 16
answers `local,0,10,10,0,write cart`.";

pub const JUDGE: &str =
    "Judges a trace of claimed stamps from standard input, with a verdict for each";

pub const CLAIMS: &str = "\
A record of a trace is a row of CSV, which claims one event with its stamp (L, C):
  local,NODE,READING,L,C           at the node NODE, whose clock reads READING
  send,NODE,READING,L,C            the same, and a message goes out; `sync` is another word for it
  receive,NODE,READING,SEND,L,C    the message of the send in place SEND comes in
Places count from 0. The answer has a row for each record:
  verdict,PLACE,behind             L is less than the reading
  verdict,PLACE,not-above,BEFORE   the claim in place BEFORE happened before, and its stamp isn't lower
  verdict,PLACE,low,L,C            the least stamp that the event can have is (L, C), which is greater
  verdict,PLACE,least              it is the least stamp
  verdict,PLACE,ahead,L,C          the least stamp is (L, C), which is lower
A record that is none of these gets the one row `bad,PLACE,WORD`.

Example:
  printf 'local,0,10,10,0\\nlocal,0,10,11,0\\n' | hlc judge
answers `verdict,0,least` and `verdict,1,ahead,10,1`: for the second event (10, 1) was enough.";

pub const AUDIT: &str =
    "Audits a log of claimed stamps from standard input: how many are wrong, and where that began";

pub const LOGS: &str = "\
A record of a log is a row of CSV, which claims one event with its stamp (L, C):
  local,NODE,READING,L,C[,LABEL]             at the node NODE, whose clock reads READING
  send,NODE,READING,L,C,MESSAGE[,LABEL]      the same, and the message MESSAGE goes out
  receive,NODE,READING,L,C,MESSAGE[,LABEL]   the message MESSAGE comes in
  restart,NODE,READING,L,C[,LABEL]           NODE came back with its clock restored to (L, C), a bound that it had kept
Nodes and messages have names, READING may be empty, and so may L and C of a receive. The events of a node stand as they happened, so the
logs of several nodes may follow one another. With `--packed B` or `--dotted`, L and C are one field. If the first record begins with `kind`,
it names the columns: `node`, `reading`, `l` and `c` or `stamp`, `message`, `label` and `seq`: by this number the
events of a node stand then, and where it is equal by their lines. There a receive may also tell the stamp that its
message carried, in `carried_l` and `carried_c`, or `carried`; then no record need send the message. It may name the node that sent, in
`from`, in place of the message, and a send may then leave `message` empty. With `--tolerance D` a reading
above L by at most D is taken as L, and one farther above as D less. With `--receives merge` a clock that receives takes the greater of
its stamp and the message's, and isn't read; with `merge-clock` it is read as well. With `--resent first` or `--resent last` a message
may be sent again: each send after the first then counts as one of a message of its own.

With `--jsonl` each line is a JSON object, and a column is its value of that name: `l` is at `.l`, unless `--field l=.hlc.l` says where else,
or `--field send.l=.hlc.l` does for the events of a word.
A line whose `kind` is none of these words is left out, unless `--kind send=posted,sent` says that it means one. With `--reading-unit ms
--l-unit ns` readings are in another unit of time than L: s, ms, us or ns; and L may be in ntp64, as uhlc's is with `--packed 4`.

The answer has these rows, with lines counted from 1:
  count,VERDICT,N                    so many events have a verdict, by the words of `hlc judge`, or `carried`: ahead of a full C
  cause,LINE,NODE,behind             the clock broke its rule: L is below the reading, or what came from outside carried no lower stamp
  cause,LINE,NODE,not-above,BEFORE   it did: the event on line BEFORE, its node's last or the send, has no lower stamp; `,swapped` at
                                     the end says that both stamps would be right with the two lines in each other's place
  cause,LINE,NODE,ahead,L,C          it did: (L, C) was enough to be above the stamps directly before
  cause,LINE,NODE,carried,SEND       the message carried another stamp than its send, on line SEND, claims
  node,NODE,EVENTS,AHEAD,LINE,ORIGIN how far the least stamps ran ahead of its clock, the first line where,
                                     and the line of the origin; or `none`, if no reading of it is told
  messages,SENT,RECEIVED,REPEATED,OPEN
  skew,FROM,TO,AHEAD,SEND,RECEIVE    how far a send of FROM read ahead of its receive by TO at most, and their lines
  unsent,N                           with `--unsent local`, so many receives were taken as local events
  resent,N                           with `--resent WHICH`, so many sends sent a message that an earlier line sends
  outside,N                          so many receives tell what was carried by a message that no record sends, if there are some
  unread,N                           so many events have no reading, if there are some
  unstamped,N                        so many receives have no stamp, if there are some
  skipped,N,LINE                     so many records were left out, if there are some, and the first line of them
  left-out,WORD,N,LINE               with `--lenient`, so many bad records were, by the word of their fault, and the first line of them
  over,NODE,N,LINE,AHEAD,ORIGIN      with `--limit D`, N events claim an L more than D above their reading: the first line of them, and
                                     how far the furthest is ahead, and the line where that L came in
  group,NODE,RULE,OF,N,LINE          with `--groups`, N causes at events of NODE have the word RULE and compare with a stamp of the node OF,
                                     its own or that of a message, or with a reading, if OF is empty; and the line of the first
With `--output json` it is one object of JSON: a list for each of these words, and in it an object for each row, with its fields by name.
If the input is no log, the answer is the one row `bad,LINE,WHY`, and the status is 4; a column that an object lacks, or that is badly
written, is named besides, and so is a message that is sent twice or isn't sent. With `--all-faults` each such record has its row. With
`--lenient` bad records are left out, but for a header, and for one whose quotation mark is open. If the log has no event, a line on standard error says so, and with `--strict` the
status is 4.

Questions, as records of the log or each by `--ask`, are answered in place of that, or after it with `--report`:
  explain,LINE  check,LINE,LINE..  relation,LINE,LINE  influenced,LINE  why,LINE,LINE  tainted,LINE  drift,NODE   as `hlc run` does, by lines
  claimed,LINE                       the claimed stamp, and the lines by which its L came
  event,LINE                         what is known of the event
  first,NODE,RULE                    the line of NODE's first event with a cause of this RULE: `behind`, `not-above`, `ahead` or `carried`
With `--ask -` the input is read to its end first, and each line below the first one that is exactly `==> questions <==` asks one, too; blank lines
ask none. If one asks nothing, nothing is answered, and the status is 4.

Example:
  printf 'local,a,10,10,0\\nlocal,a,10,11,0\\n' | hlc audit
answers, among other rows, `cause,2,a,ahead,10,1`: on line 2 the stamp (10, 1) was enough.";

pub const WATCH: &str =
    "Watches a log of claimed stamps from standard input, and tells what broke the clock rule as it comes";

pub const WATCHED_LOG: &str = "\
The log is that of `hlc audit`, as it comes. The lines of a node come in its own order, and those of different nodes in any: a receive whose
send hasn't come waits for it. As soon as it is known, each is told:
  cause,LINE,NODE,WORD..             as `hlc audit` does; a line is that of the input
  over,NODE,LINE,AHEAD               with `--limit D`, an event claims an L more than D above its reading
In the end, and after every N events with `--every N`:
  node,NODE,EVENTS,AHEAD,LINE        how far the claim that is furthest above its reading is, and its line; or `none`
  messages,SENT,RECEIVED
  waiting,N                          so many receives wait for their sends
  forgotten,N                        so many waited and were forgotten
  left-out,N                         so many records were bad
With `--keep N` the latest N messages are remembered, and as many receives wait; what is forgotten is counted, and not judged. Each event has a
stamp, and each message a name. A record that is bad is told as `bad,LINE,WHY`, and ends the watch with status 4, unless `--lenient` leaves it out.

Example:
  printf 'receive,b,5,10,0,m\\nsend,a,10,10,0,m\\n' | hlc watch
answers, among other rows, `cause,1,b,not-above,2`; and `tail -f node.log | hlc watch` tells of each fault as it comes.";

pub const DRAW_LOG: &str = "Draws a log of claimed stamps from standard input, as SVG";

pub const LOG_PICTURE: &str = "\
The log is that of `hlc audit`. Time runs down, in the order of the least stamps: each node with a row has a lane, and each event a dot
on it with its line, and beside the dots a row with the claimed stamp. A dot's form and colour tell the verdict on the stamp, and it has a
ring where the clock broke its rule. With `--explain LINE` the chain is marked that explains the least stamp of that event. A LINE of a file is
named as `NAME:LINE`, as rows tell it, if the log was put together of several files with marks `==> NAME <==` between them.

At most 500 events are drawn if `--to` isn't given. With `--around LINE` the N rows about that event are drawn, as many above it as
below if there are so many, and 40 if `--rows` isn't given. With `--only-chain` nothing is drawn but the chain that `--explain` names, with a
row for how many events lie between two of it. If a line has no event, nothing is drawn, and the status is 1. If the input is no log,
the answer is the one row `bad,LINE,WHY`, and the status is 4.

Example:
  printf 'local,a,10,10,0\\nlocal,a,10,11,0\\n' | hlc draw-log > log.svg
draws two dots on the lane of `a`, the second with a ring.";

pub const VECTORS: &str =
    "Writes a log of claimed stamps from standard input with vector clocks, for tools that draw logs";

pub const LOG_VECTORS: &str = "\
The log is that of `hlc audit`. For each event there are two lines, as ShiViz reads them: its node with its vector clock, counted from the
messages of the log, and a row:
  NODE {\"NODE\":COUNT, \"NODE\":COUNT}
  WORD,LINE,NODE,READING,L,C[,LABEL]
A send stands above its receives. What the log doesn't tell is empty. A label with a byte other than printable ASCII is left out. If a name has
such a byte, a blank, or one of the characters `\"`, `\\` and `~`, an underscore stands for it, and `~` and a number follow. If the input is no
log, the answer is the one row `bad,LINE,WHY`, and the status is 4.

Example:
  printf 'send,a,10,10,0,m\\nreceive,b,5,10,1,m\\n' | hlc vectors
answers `b {\"a\":1, \"b\":1}` above the row `receive,2,b,5,10,1`.";

pub const STORM: &str = "Prints a script of writes, erasures and messages, drawn from a seed";

pub const STEPS: &str = "\
The first step of each node comes first, then the second of each, and so on: N * K records in all.

Example:
  hlc storm --nodes 2 --steps 3 --seed 1 | hlc run --nodes 2 --capacity 6
answers six rows of events, with their stamps.";

pub const THREADS: &str =
    "Plays a script drawn from a seed with a thread for each node, and explains all stamps";

pub const COUNTS: &str = "\
The threads share one store behind a lock, so the events come in a different order each time, and every stamp is
explained all the same. With `--limit D` events may be refused.

Example:
  hlc threads --nodes 2 --steps 20 --seed 7
answers `events,40`, the number of events, and `explained,40`, the number of them whose stamps were explained.";
