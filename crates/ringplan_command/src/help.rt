//! Texts of help and refusals.

/// Versions of program and logic, the last word of `rt version`.
pub(crate) const VERSION: &str = "1.0.0 (Rattle logic dac8208d650f15bf)";

pub(crate) const ABOUT: &str =
    "Plans, checks, shows, runs and judges changes of the members of a replicated store";

pub(crate) const MORE: &str = "With --help: the formats, an example and the exit statuses.";

pub(crate) const FILE: &str =
    "The bundle. Several files are read one after the other, as one text. With `-` or without a file standard input is read";

pub(crate) const OUTPUT: &str =
    "Writes to FILE in place of standard output: all of the text, or nothing if the exit status is not 0 or 4. Links and permissions stay";

pub(crate) const GOAL: &str =
    "Prints a plan that leads to a goal ring, by racks, weights and dead nodes, with its certificate";

pub(crate) const AROUND: &str =
    "Prints another plan and its history for a change that has begun: around dead nodes, at rest, or with slots left out";

pub(crate) const SHOW: &str =
    "Prints a summary of the plan, and with a history how far it has come";

pub(crate) const DRAW: &str =
    "Prints a picture of the plan as SVG, and with a history how far it has come";

pub(crate) const MAP: &str =
    "Draws who owns what before the plan and after it, in place of who gives what to whom";

pub(crate) const CHECK: &str = "Says whether the checker accepts the plan";

pub(crate) const WHY: &str =
    "Says why a bundle is refused: the lines concerned, and lines that may mend it";

pub(crate) const STEPS: &str =
    "Prints the plan's steps as lines of JSON, for a program that does them on a store";

pub(crate) const WINDOWS: &str =
    "Prints the plan cut into bundles that are done one after the other";

pub(crate) const AFTER: &str =
    "Prints the ring that the plan leaves, or what a history has done of it";

pub(crate) const PLAY: &str =
    "Runs the events of a script over a model of the store, and prints each reply";

pub(crate) const DRIVE: &str =
    "Runs the plan by threads: workers do its steps while clients do their scripts";

pub(crate) const REPLAY: &str = "Says whether a history is a run of the plan";

pub(crate) const PART: &str =
    "Prints the bundle of what some partitions see of a history, which may have any number of entries";

pub(crate) const OF: &str =
    "Cuts for K parts, 1 to 4096, with --part: partition p is of part p modulo K";

pub(crate) const PART_NUMBER: &str = "Prints part I of those, 0 to K-1";

pub(crate) const PARTITIONS: &str =
    "Prints what the partitions from A to B see, both counted, in place of --of and --part";

pub(crate) const ENTRY: &str =
    "Prints which entry of the whole history is entry N of the part, both counted from 0, in place of the part";

pub(crate) const WATCH: &str =
    "Judges a history while it is written, from standard input, and ends at the first entry that cannot have happened";

pub(crate) const BUNDLE: &str = "The file of the bundle: a ring, a plan and its certificate";

pub(crate) const EVERY: &str = "Prints `so far N entries` after each K entries, 1 to 4294967295";

pub(crate) const PLAN: &str =
    "Prints a plan for a change, with its certificate, without regard to racks, weights and dead nodes";

pub(crate) const CERT: &str =
    "Prints ring and plan with a certificate that it finds, whether or not the bundle has one";

pub(crate) const MIGRATE: &str =
    "Prints the bundle with a ring of format 1 in format 2; checks nothing";

pub(crate) const COMPLETIONS: &str =
    "Prints a script by which a shell completes command lines of the program";

pub(crate) const MANUAL: &str = "Prints the page of the manual, for man";

pub(crate) const SHELL: &str = "The shell: bash, zsh or fish";

pub(crate) const FORMAT: &str =
    "Prints the answer as text or as json, one object; without it as text";

pub(crate) const COLOR: &str =
    "Colours the words: auto, at a terminal if NO_COLOR is not set, always or never; without it auto";

pub(crate) const WORKERS: &str =
    "Checks the partitions by K threads, 1 to 64, and the paths by as many as there are processors; the answer is the same";

pub(crate) const DRIVERS: &str = "Does the steps by K threads, 1 to 64; without it by one";

pub(crate) const REPORT: &str =
    "Prints the history as text, or as json a report in one line: the events, who finished each step, and the workers' number. Without it as text";

pub(crate) const MOVES: &str =
    "Prints a line for each slot that moves, in place of one for each step";

pub(crate) const ALL: &str =
    "Shows every node, round and copy; without it at most 24 nodes, 12 rounds and 6 entries of a round";

pub(crate) const LAYOUT: &str =
    "What is known of nodes and partitions, as a text: racks, weights, sizes, aliases and dead nodes; docs/FORMATS.md has its lines";

pub(crate) const RACKS: &str =
    "The racks of nodes: what follows the last C of a node's name, or none, or auto. Without it auto: as the layout or the names show them";

pub(crate) const RATE: &str =
    "Says when the plan can end at the earliest, if one transfer copies N of a size in a second, 1 to 4294967295; wants --layout";

pub(crate) const DEAD: &str =
    "A node that is dead for good: no step of the plan needs it, and it leaves. What is shown counts it as dead. Write a name that begins with - as --dead=-NAME";

pub(crate) const GONE: &str =
    "A node that is dead from here on: no later step needs it. Write a name that begins with - as --dead=-NAME";

pub(crate) const BACK: &str =
    "Undoes mirrors that no copy can fill any more. The store must let go of them, as docs/STORES.md says. With --rest also those whose copies have no chunk";

pub(crate) const REST: &str = "Ends the moves that have begun, and begins no others";

pub(crate) const LEAVE: &str =
    "A slot that stays with its owner, by its partition and index. A mirror of the slot is undone. May stand several times";

pub(crate) const ALL_SLOTS: &str =
    "Says in a line for each slot what becomes of it; without it only how many slots there are at each node";

pub(crate) const PARTIAL: &str =
    "Plans the rest if partitions cannot be read, because fewer than R of their owners live: the slots of these stay as they are";

pub(crate) const EXIT_CODE: &str =
    "Ends with status 4 if the plan that is printed has steps, and with 0 if it has none";

pub(crate) const ROUNDS: &str = "How many rounds of copies a window has, 1 to 1000000";

pub(crate) const ONLY: &str = "Prints only the window of that number, counted from 1";

pub(crate) const NO_WORKERS: &[u8; 105] =
    b"error: invalid value for '--workers <K>': not a number from 1 to 64\n\nFor more information, try '--help'.\n";

pub(crate) const NO_EVERY: &[u8; 111] =
    b"error: invalid value for '--every <K>': not a number from 1 to 4294967295\n\nFor more information, try '--help'.\n";

pub(crate) const NO_PART: &[u8; 153] =
    b"error: a part is named by '--of <K>' and '--part <I>' with I below K, or by '--partitions <A-B>' with A not above B\n\nFor more information, try '--help'.\n";

pub(crate) const NO_RACKS: &[u8; 116] =
    b"error: invalid value for '--racks-behind <C>': not one character, none or auto\n\nFor more information, try '--help'.\n";

pub(crate) const NO_FORMAT: &[u8; 100] =
    b"error: invalid value for '--format <FORMAT>': not text or json\n\nFor more information, try '--help'.\n";

pub(crate) const NO_COLOR: &[u8; 106] =
    b"error: invalid value for '--color <WHEN>': not auto, always or never\n\nFor more information, try '--help'.\n";

pub(crate) const NO_RATE: &[u8; 81] =
    b"error: '--rate <N>' wants '--layout <FILE>'\n\nFor more information, try '--help'.\n";

pub(crate) const NO_WINDOW: &[u8; 111] =
    b"error: invalid value for '--rounds <K>' or '--only <W>': not 1 to 1000000\n\nFor more information, try '--help'.\n";

pub(crate) const NO_DETOUR: &[u8; 138] =
    b"error: what changes is said by '--dead <NODE>', a layout that names one, '--leave <P.I>' or '--rest'\n\nFor more information, try '--help'.\n";

pub(crate) const NO_SLOT: &[u8; 121] =
    b"error: invalid value for '--leave <P.I>': not a partition and an index, such as 3.1\n\nFor more information, try '--help'.\n";

/// The answer to arguments that are not text.
pub const NO_WORDS: &[u8; 123] =
    b"error: invalid UTF-8 was detected in one or more arguments\n\nUsage: ringplan <COMMAND>\n\nFor more information, try '--help'.\n";

pub(crate) const NO_SHELL: &[u8; 95] =
    b"error: invalid value for '<SHELL>': not bash, zsh or fish\n\nFor more information, try '--help'.\n";

/// Former words, and what replaced them.
///
/// Each has how the error begins, its command if the word is an option, and the line to print.
pub(crate) const SUCCESSORS: &[(&str, &str, &str); 6] = &[
    (
        "error: unrecognized subcommand 'judge'",
        "",
        "ringplan: there is no `judge`: use `replay`, or `part` for histories of more than 1,000,000 entries\n",
    ),
    (
        "error: unrecognized subcommand 'bundle'",
        "",
        "ringplan: there is no `bundle`: use `goal` for a change, and `cert` for a plan\n",
    ),
    (
        "error: unexpected argument '--even'",
        "Usage: ringplan goal ",
        "ringplan: there is no `goal --even`: use `show`, which says how even a ring is\n",
    ),
    (
        "error: unexpected argument '--json'",
        "Usage: ringplan drive ",
        "ringplan: there is no `drive --json`: use `drive --format json`\n",
    ),
    (
        "error: unexpected argument '--sizes'",
        "",
        "ringplan: there is no `--sizes`: use `--layout`, with `size` lines\n",
    ),
    (
        "error: unexpected argument '--weight'",
        "",
        "ringplan: there is no `--weight`: use `--layout`, with `weight` lines\n",
    ),
];

pub(crate) const STREAMS: &str = "\
Example: ringplan goal examples/plan_grow.bundle

A bundle is the text of a ring, then one of these: a change; a plan and its certificate; these and then a script or a history.
Standard output has what the command prints. `plan`, `check`, `play`, `drive`, `replay` and `migrate` print their refusals there too:
one line of `no`, the refusal's number and its values. The other commands print refusals on standard error, with why.

Exit status:
  0  it was printed, or yes
  1  the plan is refused, there is none, a drive broke off, or the history is not a run of the plan
  2  a text or the command line is refused
  3  out of memory, or an input or output failed
  4  `goal --exit-code` printed a plan that has steps";

pub(crate) const PLAN_STREAMS: &str = "\
Example: ringplan plan examples/plan_replace.bundle

Input: the text of a ring, then that of a change: `change 1`, a line `join <node>` for each node that joins, then a line `leave <node>` for
each member that leaves, `end`.
Standard output: the text of a plan that makes the change, then that of its certificate. After the ring's text they are what `check` and `play`
read. Or one line of `no`, the refusal's number and its values: `no 28` if there is no plan, for example because fewer members would be left
than a partition has slots. A change without `leave` lines always has a plan.

Exit status:
  0  a plan was printed
  1  there is no plan
  2  a text or the command line is refused
  3  out of memory, or an input or output failed";

pub(crate) const DRIVE_STREAMS: &str = "\
Example: ringplan drive --workers 3 examples/drive_a_move_by_three.bundle

Input: the texts of a ring, a plan, its certificate and 1 to 8 scripts. A script has only `put`, `get`, `down` and `up` lines. The numbers
after `seen` count its own `get` lines from 0.
Standard output: `yes`, and the text of the history: each event that was answered, with its reply, in the order in which they happened. It is a
run of the plan that finishes every step; with several threads chance decides which one of many runs. With `--format json` one line of JSON instead. Or one
line of `no`, the refusal's number and its values.

Exit status:
  0  the plan was run
  1  the plan is refused, or the drive broke off (`no 70`, `no 71`)
  2  a text or the command line is refused
  3  out of memory, or an input or output failed";

pub(crate) const CHECK_STREAMS: &str = "\
Example: ringplan check examples/move_one_slot.bundle

Input: the texts of a ring, a plan and its certificate.
Standard output: `yes`, or one line of `no`, the refusal's number and its values. `ringplan why` says the same in words.
With `--format json` an object in one line instead: `answer`, and of a no `name`, `number` and `values`.

Exit status:
  0  yes
  1  the plan is refused
  2  a text or the command line is refused
  3  out of memory, or an input or output failed";

pub(crate) const REPLAY_STREAMS: &str = "\
Example: ringplan replay examples/replay_a_move.bundle

Input: the texts of a ring, a plan, its certificate and a history: `history 1`, for each entry an event, ` = ` and its reply, and `end`.
Standard output: if the history is a run of the plan with these replies, `yes`, the owners of each partition's slots after the last entry, and
`end`. Otherwise `no 70`, the place of the first entry that cannot have happened so, counted from 0, and the number by which its event would be
refused, or 0 if it would be answered otherwise. If the plan or a text is refused, one line of `no`.
With `--format json` an object in one line instead: `answer`, and of a no `name`, `number` and `values`.

Exit status:
  0  the history is a run of the plan
  1  the plan is refused, or the history is not a run of it (`no 70`)
  2  a text or the command line is refused
  3  out of memory (at an entry too), or an input or output failed";

pub(crate) const PART_STREAMS: &str = "\
Example: ringplan part --of 64 --part 7 history.bundle | ringplan replay

Input: the texts of a ring, a plan, its certificate and a history of any length, read to its end before anything is printed.
Standard output: the same ring, plan and certificate, and a history with all steps and what nodes do, but only the puts, gets, hints and handoffs
of the chosen partitions, with new numbers for puts and gets. A history is a run of the plan exactly if each of its parts is. With `--map` it is
one number: the least of these for the faults of all parts is the fault of the whole. Standard error: why nothing is printed, such as a
part of more than 1,000,000 entries or 67,108,864 bytes, with the number of parts that may do.

Exit status: 0 printed, 2 a text or the command line is refused, or the part is too large or has no entry N, 3 memory, input or output";

pub(crate) const WATCH_STREAMS: &str = "\
Example: ringplan watch planned.bundle --every 1000 < log

Input: in FILE the texts of a ring, a plan and its certificate; on standard input a history of up to 4294967294 entries, whose lines count from 1.
Standard output: at the line `end`, or at the input's end after a whole line, what `replay` prints. At the first entry that cannot have happened
`no 70`, its place, counted from 0, and its number or 0, as `replay` says. At a line that is refused one line of `no`. An answer ends the command:
nothing more is read. If a line is refused after an entry that cannot have happened, the entry decides; `replay` reads all lines first.
A plan or a text in FILE is refused as by `check`, before any entry is read.

Exit status:
  0  the history is a run of the plan
  1  the plan is refused, or the history is not a run of it (`no 70`)
  2  a text or the command line is refused
  3  out of memory (at an entry too), or an input or output failed";

pub(crate) const MIGRATE_STREAMS: &str = "\
Example: ringplan migrate examples/move_one_slot.bundle

Input: the texts of a ring, a plan and its certificate.
Standard output: the bundle, with `ring 2` and `cert 2` if the ring had format 1, and otherwise unchanged. Or one line of `no`, the number of the
first fault of the texts and its line. The plan is not checked.

Exit status:
  0  the bundle was printed
  2  a text or the command line is refused
  3  out of memory, or an input or output failed";

pub(crate) const PLAY_STREAMS: &str = "\
Example: ringplan play examples/play_a_move_under_traffic.bundle

Input: the texts of a ring, a plan, its certificate and a script.
Standard output: `yes`; for each event of the script its place, counted from 0, and its reply, or `no`, the refusal's number and its values;
then the owners of each partition's slots, and `end`. A refused event changes nothing. If the plan or a text is refused, one line of `no`.

Exit status:
  0  the script was played, whatever the replies
  1  the plan is refused
  2  a text or the command line is refused
  3  out of memory (at an event too), or an input or output failed";

pub(crate) const WHY_STREAMS: &str = "\
Example: ringplan why examples/node_enters_before_it_left.bundle

Input: a bundle: a ring with a change, or with a plan and its certificate, and perhaps a history.
Standard output: the line that `ringplan check` prints of a ring, a plan and its certificate. If the plan is refused, the promises that its certificate
shows all the same. Then words: the lines concerned, with `^` under the fault and `-` under what belongs to it, and new lines in place of some of them.
New lines are shown only if the checker was asked about the bundle with them: `then the checker says yes` if it does.

Exit status: 0 yes, 1 no plan, one that is refused, or a history that is not a run, 2 a text or the command line is refused, 3 memory, input or output";

pub(crate) const CERT_STREAMS: &str = "\
Example: ringplan cert examples/no_certificate.bundle -o certified.bundle

Input: a bundle: a ring with a change, or with a plan. What follows the plan, as a certificate, is not read.
Standard output: the texts of the ring, the plan and a certificate for it, which `ringplan check` accepts. If none is printed, standard error has what
`why` prints of the bundle with the best certificate that was found. Chains are as few as the plan's order allows: if a node has too many, no
certificate exists.

Exit status: 0 printed, 1 no plan or one that is refused, 2 a text or the command line is refused, 3 memory, input or output";

pub(crate) const AFTER_STREAMS: &str = "\
Example: ringplan after examples/planned_replace.bundle

Input: a bundle: a ring with a change, or with a plan and its certificate, and perhaps a history.
Standard output: the text of a ring with the same nodes, and with the owners and members after the plan, or after the steps that the history has
done: the next change begins with it. A move that a history has begun and not switched is `no 21` and the step that began it.

Exit status: 0 printed, 1 no plan, one that is refused, or an open move, 2 a text or the command line is refused, 3 memory, input or output";

pub(crate) const SHOW_STREAMS: &str = "\
Example: ringplan show examples/plan_grow.bundle

Input: a bundle: a ring with a change, or with a plan and its certificate, and perhaps a history.
Standard output: who joins and leaves, what moves in how many rounds, what becomes of balance, racks and failures, the nodes that take part, and the
copies of each round; with a history what is done, open and next; and who is dead or down. For a ring without a plan each node with its alias, rack,
state, slots, size and allowance. If the layout has sizes, how much moves in all, by node and by round, and the most in a row of copies that wait for
one another. With `--rate` also when the plan ends at the earliest; with a history both are of what is left.
Partitions, slots, steps and rounds are numbers; `5.1` is slot 1 of partition 5.

Exit status: 0 printed, 1 no plan, one that is refused, or a history that is not a run, 2 a text or the command line is refused, 3 memory, input or output";

pub(crate) const DRAW_STREAMS: &str = "\
Example: ringplan draw examples/plan_grow.bundle -o plan.svg

Input: a bundle: a ring with a change, or with a plan and its certificate, and perhaps a history.
Standard output: an SVG file that needs no other: a row for each node that takes part, a column for each round, a bar for each copy, which shows its
step under a pointer; with a history what is copied, open and still to do. The names of nodes that are dead or down are crossed out. If the layout has
sizes, how much each node gives and takes. Above 40 rounds or 90 copies side by side columns and rows are summed. With `--map` a row is a partition and
a column a node: grey is owned before and after, orange given, blue taken.

Exit status: 0 printed, 1 no plan, one that is refused, or a history that is not a run, 2 a text or the command line is refused, 3 memory, input or output";

pub(crate) const STEPS_STREAMS: &str = "\
Example: ringplan steps examples/plan_replace.bundle

Input: a bundle: a ring with a change, or with a plan and its certificate.
Standard output: an object a line, for each step in the plan's order: `step` its number, `do` its kind (`join`, `mirror`, `copy`, `switch`, `drop` or
`retire`), `after` the numbers of the steps that must be done before it, and as far as it has them `partition` and `slot`, `node` the node that joins,
retires or drops what it has, `from` the owners that a copy reads, and `to` the node that mirrors the slot. Members are sorted by name.
With `--moves` an object a line for each slot that moves: `move` its number, `partition` and `slot`, `from` and `to` the nodes, `steps` the numbers of
its steps in their order, and `after` those of the steps that must be done before all of these can be.

Exit status: 0 printed, 1 no plan or one that is refused, 2 a text or the command line is refused, 3 memory, input or output";

pub(crate) const GOAL_STREAMS: &str = "\
Example: ringplan goal --dead b examples/goal_around_a_dead_node.bundle -o plan.bundle

Input: the text of a ring, and then that of the goal ring, with the same nodes, partitions and quorums; or that of a change, and then the goal ring
is made: no slot moves without need, and what moves goes where it keeps racks apart and slots even by weight.
If the layout has sizes, a slot moves if it is a leaver's, or if it goes to a node that joins and stores no more than its share.
Standard output: the texts of the first ring, a plan that leads to the goal ring, and its certificate, which `ringplan check` accepts. Standard error:
by which racks a change was planned, and which slots stay; or why there is no plan. The slots of a partition are compared as sets. A dead node that is
to leave keeps its line `in`: it cannot take part in its own retirement.

Exit status: 0 printed, with `--exit-code` 4 if the plan has steps, 1 no plan, 2 a text or the command line is refused, 3 memory, input or output";

pub(crate) const AROUND_STREAMS: &str = "\
Example: ringplan around --dead b begun.bundle -o on.bundle

Input: a ring, a plan, its certificate and a history, which is a run of the plan that stopped or goes on. If a second bundle follows, without a history, its
plan is the one to go on by. At least one of --dead, a layout that names a dead node, --leave and --rest.
Standard output: the ring, another plan, its certificate and the history by that plan: `check` accepts the plan, and `replay` the history, which takes
the place of the old one from here on. Steps that are done are in both plans, with other numbers: a program that does the plan hands out no step while
it changes bundles, and finds what it holds of a step by the step's kind, partition, slot and node. Standard error: how many slots do not go where
they were to go, by node, and with --all each of them; or why there is no such plan.

Exit status: 0 printed, 1 no plan, or one that is refused, or not a run of it, 2 a text or the command line is refused, 3 memory, input or output";

pub(crate) const WINDOWS_STREAMS: &str = "\
Example: ringplan windows --rounds 1 examples/plan_replace.bundle

Input: a bundle: a ring with a change, or with a plan and its certificate.
Standard output: for each window the texts of a ring, a plan and its certificate, which `ringplan check` accepts, one after the other: three sections
that end with `end`. Play or run the first, then the second; between them the ring is at rest. A slot moves within one window. Each window has the
whole ring, and all of them together at most 67,108,864 bytes: of a large ring with many rounds let a window have more of these.

Exit status: 0 printed, 1 no plan, one that is refused, or no window of that number, 2 a text, the command line or so many bytes are refused, 3 memory, input or output";

pub(crate) const COMPLETIONS_STREAMS: &str = "\
Example: ringplan completions bash -o ~/.local/share/bash-completion/completions/ringplan

Input: none.
Standard output: the script. It completes commands, their options and the names of files. bash reads it by `source`, or finds it by itself in the
folder of the example; zsh finds it as `_ringplan` in a folder of `fpath`, and fish as `~/.config/fish/completions/ringplan.fish`.

Exit status: 0 printed, 2 the command line is refused, 3 memory or output";

pub(crate) const MANUAL_STREAMS: &str = "\
Example: ringplan man -o ~/.local/share/man/man1/ringplan.1

Input: none.
Standard output: the page in the language of man(7), with each command, its options and its formats. `man -l FILE` shows it.

Exit status: 0 printed, 2 the command line is refused, 3 memory or output";
