//! The texts of the program's help.

/// The version of the program and of the library, which bindings/declarations.py compares. Its first number is the
/// newest version of the lines. Each configuration names its own.
pub const VERSION: &str = "2.0.0";

/// The program in one line.
pub const ABOUT: &str =
    "A replicated bank of two to sixteen sites, whose operations can be undone exactly";

/// The texts of a command: how it is used, what it does in a line, and what its help ends with.
#[derive(Clone, Copy)]
pub struct Texts {
    pub usage: &'static str,
    pub about: &'static str,
    pub help: &'static str,
}

/// The texts of `script`.
pub const SCRIPT: Texts = Texts {
    usage: "rbbank script [FILE]",
    about: "Answers the commands on standard input, a line of JSON each",
    help: r#"The first line is the configuration, and each later line a command at a site. A deposit is made
at site 0, and comes to site 1:

  {"accounts":[["ann",0],["bob",1000]],"sites":2,"version":1}
  {"deposit":["ann",500],"site":0}
  {"deliver":1,"site":1}
  {"apply":"B0.1","site":1}
  {"balance":"ann","site":1}

The replies, one line for each command:

  {"kind":"deposit","name":"B0.1"}
  {"held":"B0.1"}
  {"applied":"B0.1"}
  {"balance":500}

A command that isn't done is answered by its reason, as {"refused":1} for an unknown account.

The commands, an example each. "R1", "B0.1" and the like are names of operations:

  {"deposit":["ann",500],"site":0}       adds 500 cents
  {"withdraw":["ann",200],"site":0}      takes 200 cents, or declines if less is there
  {"interest":["ann",150],"site":0}      adds 150 basis points of the balance, rounded down
  {"site":0,"transfer":["ann","bob",30]} moves 30 cents from ann to bob, or declines if ann has less
  {"cancel":"R1","site":0}               undoes an operation exactly
  {"batch":[{"deposit":["ann",50]},{"withdraw":["ann",80]}],"site":0}
                                         makes up to 16 of these five, all or none
  {"deliver":1,"site":1}                 the first message that was ever sent comes to site 1
  {"apply":"B0.1","site":1}              applies an operation that came
  {"pass":1,"site":0}                    sends the token to site 1: taking and moving money needs it
  {"balance":"ann","site":1}             what site 1 has for ann
  {"asof":["ann",3],"site":1}            what it had after the first 3 operations that it applied
  {"site":1,"statement":"ann"}           a row for each operation on ann's account that it applied

Refusals:
   1  unknown account
   2  amount out of range: 1 to 100,000,000,000 cents
   3  rate out of range: 0 to 10,000 basis points
   4  unknown operation
   5  can't be cancelled: declined, or a cancellation
   6  already cancelled, first at "position"
   7  numbers, or epochs, are used up
   8  the site hasn't the token
   9  "seen" red operations applied, "needed" before the next
  10  would leave a balance below zero
  11  interest over its limit
  12  bad batch: no request, or more than 16
  13  request "index" of the batch, from 0, is refused or would be declined: "cause"
  14  nothing is held under the name
  15  its past isn't applied here yet
  16  the inbox is full, and the operation isn't ready
  17  bad message: "why" is 1 to 7
  18  another operation has the name
  19  no such message
  20  no such site, or the token passed to the own one
  21  the token message is for another site
  22  the position is beyond the operations that the site applied
  23  the site's history is full
  24  a transfer's two accounts are one

Statuses:
  0  every line was answered
  2  a bad line, no configuration, or wrong words
  3  a read or a write failed
  4  out of memory

All lines, limits, refusals and statuses: man 5 rbbank (in the sources docs/FORMAT.md)"#,
};

/// The texts of `histories`.
pub const HISTORIES: Texts = Texts {
    usage: "rbbank histories [FILE]",
    about: "Runs the commands on standard input as script does, and writes the sites' histories",
    help: r#"The input is a script: its first line is the configuration, and each later line a command at a site:

  {"accounts":[["ann",0]],"sites":2,"version":1}
  {"deposit":["ann",500],"site":0}
  {"balance":"ann","site":1}

No command is answered. After the last one come the configuration's line, with all its keys, and the
histories, those of site 0 first: a line for each command that a site recorded, with its reply, and in
place of a delivery with the message:

  {"accounts":[["ann",0]],"blue":1000000,"epoch":4000000000,"history":100000000,"inbox":4096,
    "red":1000000,"sites":2,"version":1}
  {"event":{"deposit":["ann",500]},"reply":{"kind":"deposit","name":"B0.1"},"site":0}
  {"event":{"balance":"ann"},"reply":{"balance":0},"site":1}

What is indented further here is the rest of the line above it. An audit accepts these lines, unless
one is longer than a line may be. At a bad line nothing is written. The commands: rbbank script --help

Statuses:
  0  the histories were written
  2  a bad line, no configuration, or wrong words
  3  a read or a write failed
  4  out of memory

All lines, limits, refusals and statuses: man 5 rbbank (in the sources docs/FORMAT.md)"#,
};

/// The texts of `audit`.
pub const AUDIT: Texts = Texts {
    usage: "rbbank audit [FILE]..",
    about: "Says whether one world can have recorded the sites' histories on standard input",
    help: r#"The first line is the configuration, and each later line an entry of a site's history: what came,
and what the site answered. The lines of one site are in the order of its history:

  {"accounts":[["ann",0]],"sites":2,"version":1}
  {"event":{"deposit":["ann",500]},"reply":{"kind":"deposit","name":"B0.1"},"site":0}
  {"event":{"balance":"ann"},"reply":{"balance":0},"site":1}

The answer is one line, after the last entry:

  {"order":[0,1]}                       one world has the histories, recorded in this order of sites
  {"event":1,"fault":"reply","site":0}  the first entry of site 0 is none that it would have recorded
  {"fault":"stuck","next":[1,2]}        no order goes on: entry 1 of site 0 and 2 of site 1 are next

Where no order goes on, these entries wait for messages that no entry before sent. A site at its end
shows one more than its entries.

With several files, as the journals of all sites, each has to have the first one's first line, and the
lines after it follow those of the files before:

  rbbank audit 0.journal 1.journal

Statuses:
  0  one world has the histories
  1  no world has them
  2  a bad line, no configuration, or wrong words
  3  a read or a write failed
  4  out of memory

All lines, limits, refusals and statuses: man 5 rbbank (in the sources docs/FORMAT.md)"#,
};

/// The texts of `migrate`.
pub const MIGRATE: Texts = Texts {
    usage: "rbbank migrate [FILE]",
    about: "Writes the sites' histories on standard input again, in the newest version of their lines",
    help: r#"The first line is the configuration, and each later line an entry of a site's history, in version 1
or 2 of their lines. Version 2 has up to sixteen sites, and shows what a site had applied by the sites
that it had applied something of, each with its count. In version 1:

  {"accounts":[["ann",0]],"sites":2,"version":1}
  {"event":{"shadow":{"account":"ann","amount":5,"deps":[[0,1,0,0,0,0,0,0],0],"home":1,
    "kind":"deposit","name":"B1.2"}},"reply":{"held":"B1.2"},"site":0}

What is indented further here is the rest of the line above it. The same in version 2:

  {"accounts":[["ann",0]],"blue":1000000,"epoch":4000000000,"history":100000000,"inbox":4096,
    "red":1000000,"sites":2,"version":2}
  {"event":{"shadow":{"account":"ann","amount":5,"deps":[[[1,1]],0],"home":1,
    "kind":"deposit","name":"B1.2"}},"reply":{"held":"B1.2"},"site":0}

Statuses:
  0  every line was written
  2  a bad line, no configuration, or wrong words
  3  a read or a write failed
  4  out of memory

All lines, limits, refusals and statuses: man 5 rbbank (in the sources docs/FORMAT.md)"#,
};

/// How `site` is used.
const SITE_USAGE: &str =
    "rbbank site --me S --journal FILE [--new] [--resend N] [--record changes|all] [--bank NAME] [--seal] < EVENTS";

/// The texts of `site`.
pub const SITE: Texts = Texts {
    usage: SITE_USAGE,
    about: "Runs one site, which keeps its history in a file: answers the events on standard input",
    help: r#"The first line is the configuration, and each later line an event: any command but "deliver", without its
site, or a message that another site sent. At site 0, with --new, which makes its journal:

  {"accounts":[["ann",0]],"sites":2,"version":1}
  {"deposit":["ann",500]}

The answer is one line for each event, once the history is on the disk: the reply, the messages that the event
sent, and the replies of the operations that became ready, which are applied then:

  {"reply":{"kind":"deposit","name":"B0.1"},"sends":[{"shadow":{"account":"ann","amount":500,
    "deps":[[0,0,0,0,0,0,0,0],0],"home":0,"kind":"deposit","name":"B0.1"}}],"then":[]}

What is indented further here is the rest of the line above it. A message is given to its receivers as an event,
as it is: an operation to every other site, the token to the site that it is for. A line that is no event is answered
{"bad":"line","line":N,"why":".."}, by its number, a too long one {"bad":"long","line":N}. The events, an example each:

  {"deposit":["ann",500]}                any command of a script but "deliver", without its site
  {"deposit":["ann",500],"id":"a-1"}     made once, however often it comes; also with any other operation and a batch
  {"shadow":{..}}                        an operation of another site, as that site sent it
  {"token":[1,0,2]}                      the token, as another site sent it
  {"about":"site"}                       shows what the site has
  {"resend":5}                           sends the messages of its last 5 entries again

Without --new the journal has to be there, and goes on: first the messages of its last N entries are written again,
those of all entries if --resend isn't given. With --new it isn't there, or is empty: no other operations are made
under names that are taken. What a crash left after its last line is kept in FILE.cut.

An event that changes nothing, as a balance, a refusal or a message that the site has, is answered and not recorded.
With --record all each event is, but one that changes nothing and whose line in the journal would be too long.

With --bank b2026 each message begins with "bank":"b2026", and one that comes must have it. A request may have it. Any
line of another bank is answered {"reply":{"refused":26},"sends":[],"then":[]}, and changes nothing. The journal has no
bank's name.

With --seal no input is read, nothing is served, and --new, --resend and --record make no difference: the journal has
to be there, and is sealed for good. No site starts over it again; rbbank close reads the sealed journals of all sites.

The options have any order, as --me 0 or as --me=0; a file's name that begins with - is written ./-

Statuses:
  0  every line was answered, or the journal was sealed
  2  no configuration, a bad one, no such site, wrong words, or a journal that isn't there without --new, that is
     there with it, that is in use, sealed, damaged, or not of this site
  3  a read or a write failed, or the journal did
  4  out of memory

All lines, limits, refusals and statuses: man 5 rbbank (in the sources docs/FORMAT.md)"#,
};

/// The help of `close`.
const CLOSE_HELP: &str =
    r#"The sealed journals of all sites of a bank are audited. The books can be closed if each site has applied every
operation that any site made. Where ann has 500 cents in the journals a, of site 0, and b, of site 1:

  rbbank close --sites 3 --account bob --account eve a b

The answer is one line: the next bank's configuration, with all its keys. Each account starts with its balance,
and an added one with 0:

  {"accounts":[["ann",500],["bob",0],["eve",0]],"blue":1000000,"epoch":4000000000,"history":100000000,
    "inbox":4096,"red":1000000,"sites":3,"version":1}

What is indented further here is the rest of the line above it. Or the line is why they can't be closed:

  {"fault":"open","lacks":[["R1"],[]]}  site 0 lacks operation R1, and site 1 lacks none: for each site the
                                        first of each home and of the red ones
  {"account":"ann","fault":"limit"}     ann, the first such account, has more than an account may start with
  {"event":1,"fault":"reply","site":0}  no world has the histories, as an audit answers it; also as
                                        {"fault":"stuck","next":[1,2]}

The options have any order, as --sites 3 or as --sites=3; a file's name that begins with - is written ./-

Statuses:
  0  the next configuration was written
  1  the books can't be closed
  2  wrong words, a journal that isn't sealed, is damaged, or not of its site or bank, another number of journals
     than of sites, or accounts that can't be added
  3  a read or a write failed
  4  out of memory

All lines, limits, refusals and statuses: man 5 rbbank (in the sources docs/FORMAT.md)"#;

/// The texts of `close`.
pub const CLOSE: Texts = Texts {
    usage: "rbbank close [--sites N] [--account NAME].. JOURNAL..",
    about: "Closes the books of the sites' sealed journals, and writes the next bank's configuration",
    help: CLOSE_HELP,
};

/// The texts of `threads`.
pub const THREADS: Texts = Texts {
    usage: "rbbank threads --sites K --tellers T --seed S",
    about: "Runs tellers in threads at the sites of a bank, and writes the sites' histories",
    help: r#"Each teller makes a hundred calls, by numbers of its own, at a site that it shares with others; one more
thread at each site applies what the others sent. Then the configuration and the histories are written,
as the lines that an audit reads:

  rbbank threads --sites 3 --tellers 4 --seed 7 | rbbank audit

Each option is wanted, in any order, as --seed 7 or as --seed=7.
Which histories come out differs from run to run.

Statuses:
  0  the histories were written
  2  wrong words
  3  a write failed
  4  out of memory, or a thread couldn't be made
  5  a site's history is full, or isn't what its clients were answered

All lines, limits, refusals and statuses: man 5 rbbank (in the sources docs/FORMAT.md)"#,
};

/// The help of the files of `script`, `histories`, `audit` and `migrate`.
pub const FILES: &str = "What to read in place of standard input";

/// What `--sites` is.
pub const SITES: &str = "How many sites there are, 2 to 16";

/// What `--tellers` is.
pub const TELLERS: &str = "How many tellers there are, 1 to 64";

/// What `--seed` is.
pub const SEED: &str = "What the tellers' numbers begin with, 0 to 4294967295";

/// What `--me` is.
pub const ME: &str = "Which site it is, 0 to 15";

/// What `--journal` is.
pub const JOURNAL: &str = "The file that the site's history is kept in";

/// The help of `--new`.
pub const NEW: &str = "Makes the file, or takes an empty one; without it the file must be there";

/// What `--resend` is.
pub const RESEND: &str =
    "How many of the last entries have their messages written again, 0 to 100000000; all without it";

/// What `--record` is.
pub const RECORD: &str = "Which events are recorded: changes (the default) or all";

/// What `--bank` is.
pub const BANK: &str =
    "The bank's name, in each message: 1 to 64 of A-Z a-z 0-9 . _ : - (not with --seal)";

/// Said of words that name a bank to a seal.
pub const CONFLICT: &str = "the argument '--bank <NAME>' cannot be used with '--seal'";

/// The help of `--seal`.
pub const SEAL: &str =
    "Seals the journal for good; reads no input and serves nothing (not with --bank)";

/// What `--sites` is to `close`.
pub const NEXT_SITES: &str =
    "How many sites the next bank has, 2 to 16; as many as before without it";

/// What `--account` is.
pub const ACCOUNT: &str =
    "An account to add after the others, which starts with 0; given again for each";

/// The words after the options of `close`.
pub const JOURNALS: &str = "The sealed journals of all sites, in the order of their numbers";

/// An example of each command.
pub const EXAMPLES: &str = r#"An example of each command:

  rbbank script day.jsonl                         answers a script
  rbbank histories day.jsonl > histories.jsonl    writes the histories of its sites
  rbbank audit histories.jsonl                    says whether one world can have recorded them
  rbbank audit 0.journal 1.journal                says it of the journals of all sites
  rbbank migrate histories.jsonl                  writes the histories in version 2
  rbbank threads --sites 3 --tellers 4 --seed 7   writes the histories of tellers in threads
  rbbank site --me 0 --journal 0.journal --new < events.jsonl
                                                  runs site 0 over a new journal
  rbbank site --me 0 --journal 0.journal --seal   seals its journal
  rbbank close 0.journal 1.journal                writes the next bank's configuration

Without a file script, histories, audit and migrate read standard input. rbbank COMMAND --help has the
lines of a command, an example each. All lines, limits, refusals and statuses: man 5 rbbank (in the
sources docs/FORMAT.md)"#;
