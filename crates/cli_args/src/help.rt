//! The texts of the help, in lines of at most 80 columns, as clap sets them.

pub(crate) const ABOUT: &str =
    "Keeps a maximal matching on a changing network by self-stabilising rules, and
writes a numbered transcript of every event and its reply.";

pub(crate) const RULES_HELP: &str = "Hsu and Huang's, or Manne's";

pub(crate) const NODES_HELP: &str = "The capacity: nodes are named 1 to N; at most 65535";

pub(crate) const PRESENT_HELP: &str = "Nodes 1 to P are present at the start; default: all";

pub(crate) const WORKERS_HELP: &str = "Up to K workers judge a step; 1 to 64";

pub(crate) const FROM_HELP: &str = "Go on where the run of a transcript or a base ended";

pub(crate) const ROAM_HELP: &str = "Workers that move nodes alone; 0 to 64";

pub(crate) const TURNS_HELP: &str = "Turns of each of them; at most 1000000";

pub(crate) const ENTRY_HELP: &str = "Draws the state after entry K; 0 the start; default: the end";

pub(crate) const SCRIPT_HELP: &str = "The file of the script; default: -, standard input";

pub(crate) const FILE_HELP: &str = "The file of the transcript; default: -, standard input";

pub(crate) const EXAMPLES: &str = "\
Examples:
  console run --rules hh --nodes 4 script > transcript
  console audit transcript
  console picture transcript > matching.dot
  console storm --rules manne --nodes 4 --roam 2 script other > transcript
  console help run";

pub(crate) const RUN_ABOUT: &str = "Runs a script and writes its transcript.";

pub(crate) const RUN_USAGE: &str = "\
console run [OPTIONS] --rules <RULES> --nodes <N> [SCRIPT]
       console run [OPTIONS] --from <FILE> [SCRIPT]";

pub(crate) const RUN_NOTES: &str = "\
Under hh one enabled node moves in a step, under manne any set of them. Up to K
workers judge a step: one for each 16384 of its nodes, so a single one below
32768. The number of workers does not change the transcript.

The entries of all whole lines are written before more input is read. So a
person or a program at the other end of a pipe can read the replies and then
choose, and tee or tail -f shows a long run as it goes.

With --from the rules, the nodes and their states come from the end of FILE, a
transcript or a base alone, and the output begins with a base. FILE with the
output behind it is one transcript. If audit refuses FILE, nothing is run.

Commands of a script, one per line; A and B are names of nodes:
  link A B      adds an edge            unlink A B    removes it
  point A B     A's pointer becomes B   point A -     A's pointer becomes null
  flag A 1      sets A's married flag   flag A 0      clears it
  join A        A becomes present       leave A       A leaves with its edges
  step A B>A    moves the chosen nodes at once; B is to point at A
  show A        where A points          enabled       the enabled nodes' rules
  matching      the pairs               status        counts, charge and spent
  drive S K     takes at most K steps of a daemon with the seed S, until no node
                is enabled
  scramble S K  changes up to K registers, drawn with the seed S
  checkpoint    writes the state as a base, from which a transcript may begin

Examples:
  console run --rules manne --nodes 4 script > transcript
  console run --rules manne --nodes 60000 --workers 4 script > transcript
  console run --rules hh --nodes 9 --present 4 script > transcript
  printf 'link 1 2\\nstep 1\\nstep 2\\n' | console run --rules hh --nodes 2
  console run --from transcript more > rest; cat transcript rest > whole

Exit status:
  0  the whole script was run
  1  the transcript of --from is refused
  2  bad words, a P above N (! bad present), or a line that is not a command
  3  a read or a write failed, or a file cannot be opened
  4  memory ran out, or the log is full";

pub(crate) const AUDIT_ABOUT: &str = "Judges a transcript and prints one line.";

pub(crate) const AUDIT_USAGE: &str = "console audit [FILE]";

pub(crate) const AUDIT_NOTES: &str = "\
The transcript is accepted if it is the text of a run of the rules, with any
allowed targets, from the start or from the base of a checkpoint. Each later
base must be that of the state reached. Otherwise the first wrong line is named,
with the first of these that is wrong: its form, its number, its reply.

Examples:
  console audit transcript
  console run --rules hh --nodes 4 script | console audit

Exit status:
  0  accepted
  1  refused
  2  bad words
  3  a read or a write failed, or FILE cannot be opened
  4  memory ran out";

pub(crate) const PICTURE_ABOUT: &str =
    "Draws the network that a transcript leads to, for Graphviz.";

pub(crate) const PICTURE_USAGE: &str = "console picture [OPTIONS] [FILE]";

pub(crate) const PICTURE_NOTES: &str = "\
The transcript is judged up to the line of entry K. The graph has a line for
each node and each edge, ascending. A married node is filled, and an enabled
node has its rule below its name. A pair is a bold edge; a pointer that is not
answered is an arrow along its edge. If audit refuses a line up to entry K, its
verdict is printed and no graph. If the transcript begins with a base, K is at
least the base's number, which draws the base.

Examples:
  console picture transcript | dot -Tsvg > matching.svg
  console picture --entry 0 transcript
  diff <(console picture --entry 5 transcript) <(console picture transcript)

For many nodes another engine of Graphviz is faster:
  console picture transcript | dot -Ksfdp -Tsvg > matching.svg

To watch a long run and to draw where it ended:
  console run --rules hh --nodes 9 script | tee transcript
  console picture transcript > matching.dot

Exit status:
  0  drawn
  1  the transcript is refused
  2  bad words, or there is no entry K
  3  a read or a write failed, or FILE cannot be opened
  4  memory ran out";

pub(crate) const EPOCHS_ABOUT: &str = "Lists the epochs of a transcript, one per line.";

pub(crate) const EPOCHS_USAGE: &str = "console epochs [FILE]";

pub(crate) const EPOCHS_NOTES: &str = "\
An epoch begins at the start and at each accepted disturbance. Its line has
these fields:
  start  the entry that began it, 0 for the start; - if it began before the base
         at the transcript's start
  moves  its moves
  edges, nodes   the size of its network
  bound  the most moves that an epoch of this size has
  cost   the most that its disturbance added to the charge; - in the first epoch
  rounds its complete rounds; since the base if one is at the transcript's start
Costs add up: the moves of an epoch may exceed its own cost, if earlier epochs
ended before the network was silent. A transcript that audit refuses is refused
in the same words.

Examples:
  console epochs transcript > epochs.csv
  console run --rules hh --nodes 9 script | tee transcript | console epochs

Exit status:
  0  listed
  1  the transcript is refused
  2  bad words
  3  a read or a write failed, or FILE cannot be opened
  4  memory ran out";

pub(crate) const STORM_ABOUT: &str =
    "Runs scripts at once on one network; writes their common transcript.";

pub(crate) const STORM_USAGE: &str = "\
console storm [OPTIONS] --rules <RULES> --nodes <N> <SCRIPT>...
       console storm [OPTIONS] --from <FILE> <SCRIPT>...";

pub(crate) const STORM_NOTES: &str = "\
Each script has its own thread and the commands of run. A script's commands are
carried out in order, interleaved with those of the others. All scripts are read
before the first command. After the last one the log is settled: compared with
every reply that a script got. Then it is written, from the last checkpoint on
if there was one. Up to K workers judge a script's step: one for each 16384 of
its nodes.

Roaming workers need no script. In turn t, from 0, a worker lets one enabled
node move: the one at index t modulo how many there are, ascending. If no node
is enabled, the turn passes.

With --from the rules, the nodes and their states come from the end of FILE, a
transcript or a base alone, and the output begins with a base: that of the end,
or of the storm's last checkpoint. FILE with the output behind it is one
transcript if no script has a checkpoint. If audit refuses FILE, nothing is
played.

Examples:
  console storm --rules hh --nodes 4 script other > transcript
  console storm --rules manne --nodes 9 --workers 2 --roam 4 --turns 500 script
  console storm --rules manne --nodes 9 script other | console audit
  console storm --from transcript --roam 4 script other > rest

Exit status:
  0  every script was run, and the log agrees with all replies
  1  a settle was refused, or the transcript of --from is
  2  bad words, a P above N (! bad present), a line that is not a command, or
     more than 64 scripts
  3  a read or a write failed, or a script or FILE cannot be opened
  4  memory ran out, the log is full, a clerk is behind, or no thread started";
