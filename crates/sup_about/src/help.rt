//! How each program and each command is called.

ghost use Rattle.std.specs.Prelude.{◌≡◌};
ghost use Rattle.sup_about.specs.Helps.{command_help, program_help};

use crate::asked::{Command, Program};

/// How the program is called, and what it does.
pub fn program_help(program: Program) -> &'static str
    ensures { result.now ≡ program_help program }
{
    match program {
        Program::Supctl => SUPCTL,
        Program::Supd => SUPD,
        Program::Supdraw => SUPDRAW,
    }
}

/// How the command is called, and what it does.
pub fn command_help(command: Command) -> &'static str
    ensures { result.now ≡ command_help command }
{
    match command {
        Command::Simulate => SIMULATE,
        Command::Cluster => CLUSTER,
        Command::Place => PLACE,
        Command::Inspect => INSPECT,
    }
}

const SUPCTL: &str = "\
A replicated supervisor: scripts over a cluster of nodes, runs by threads, placement, and stored images

Usage: supctl <COMMAND>

Commands:
  simulate  Runs the script on standard input, and prints what each of its lines is answered
  cluster   Runs the script on standard input by threads, and prints what its nodes know at the end
  place     Prints the member on which each child that standard input names is placed
  inspect   Prints what the image of a node on standard input tells, and begins no boot

Options:
  -h, --help     Print help; behind a command, how that command is called
      --version  Print the version, the kit, and whether this program is proved
";

const SIMULATE: &str = "\
Runs the script on standard input, and prints what each of its lines is answered

Usage: supctl simulate [OPTIONS]

Options:
      --weigh <sha256|flat>    How members are weighed for children: sha256 or flat [default: sha256]
      --intensity <0 to 1000>  How many restarts within a period a node bears, 0 to 1000 [default: 1]
      --period <1 to 1000000>  How many seconds a restart counts, 1 to 1000000 [default: 5]
      --buffer <1 to 1024>     How many of its newest changes a node keeps to send, 1 to 1024 [default: 64]
  -h, --help                   Print help
";

const CLUSTER: &str = "\
Runs the script on standard input by threads, and prints what its nodes know at the end

Usage: supctl cluster [OPTIONS]

Options:
      --weigh <sha256|flat>    How members are weighed for children: sha256 or flat [default: sha256]
      --intensity <0 to 1000>  How many restarts within a period a node bears, 0 to 1000 [default: 1]
      --period <1 to 1000000>  How many seconds a restart counts, 1 to 1000000 [default: 5]
      --buffer <1 to 1024>     How many of its newest changes a node keeps to send, 1 to 1024 [default: 64]
  -h, --help                   Print help
";

const PLACE: &str = "\
Prints the member on which each child that standard input names is placed

Usage: supctl place [OPTIONS]

Options:
      --weigh <sha256|flat>  How members are weighed for children: sha256 or flat [default: sha256]
  -h, --help                 Print help
";

const INSPECT: &str = "\
Prints what the image of a node on standard input tells, and begins no boot

Usage: supctl inspect [OPTIONS]

Options:
      --weigh <sha256|flat>  How members are weighed for children: sha256 or flat [default: sha256]
  -h, --help                 Print help
";

const SUPD: &str = "\
One node of a cluster of supervisors: answers each line on standard input, and keeps its image in a file

Usage: supd NAME --image FILE [OPTIONS]

Options:
      --image <FILE>           Where the image of the node is kept
      --weigh <sha256|flat>    How members are weighed for children: sha256 or flat [default: sha256]
      --intensity <0 to 1000>  How many restarts within a period a node bears, 0 to 1000 [default: 1]
      --period <1 to 1000000>  How many seconds a restart counts, 1 to 1000000 [default: 5]
      --buffer <1 to 1024>     How many of its newest changes a node keeps to send, 1 to 1024 [default: 64]
  -h, --help                   Print help
      --version                Print the version, the kit, and whether this program is proved
";

const SUPDRAW: &str = "\
Draws the script on standard input, as a picture in SVG

Usage: supdraw < SCRIPT > FILE.svg

Options:
  -h, --help     Print help
      --version  Print the version, the kit, and whether this program is proved
";
