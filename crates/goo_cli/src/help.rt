//! What help says of the program, of its commands and of their options.

pub const GOO: &str = "The registry of guarantees of origin of one issuing body.";

pub const GOO_EXAMPLE: &str = "Each command has its own help: goo run --help

Example:
  goo init --db registry.db --code 7 --today 2025-03-01
  goo run --db registry.db < requests > outcomes

Exit status: 0 all was done; 1 something was refused or unreadable, an account is unknown, or a registry is there
already; 2 the command line asks for nothing that can be done; 3 a fault, told on standard error.";

/// What `--version` prints after the name: the version of the program, and the line of the
/// toolchain that it is proved with. Which commit it was built from, no proved source can say: the
/// note that lies beside a package does.
pub const VERSION: &str = "0.37.0, proved with rattle-kit-13f";

pub const INIT: &str = "Makes a new registry in a file";

pub const INIT_EXAMPLE: &str =
    "Prints `ready` and the code. Where a registry is there already, nothing is changed and the exit status is 1.

Example:
  goo init --db registry.db --code 7 --today 2025-03-01";

pub const RUN: &str = "Answers the requests of standard input, one a line";

pub const RUN_EXAMPLE: &str =
    "A line is the caller, one space and a JSON object. At most 16777216 bytes are read, all of them before the first is answered.
Exactly one of --db and --memory is given; --code, --today and --next-serial stand with --memory alone.

Examples:
  goo run --db registry.db < requests > outcomes
  goo run --memory --code 7 --today 2025-03-01 < requests";

pub const DECLARE: &str = "Imports the declarations of standard input, a CSV file";

pub const DECLARE_EXAMPLE: &str =
    "Its first line is key,device,first_day,last_day,gross_wh,aux_wh; the report says of each row what became of it.
At most 16777216 bytes are read.
Run service/goo_service/people/declarations.py FILE first: it reads the whole file and sends nothing. The periods of a device are accepted in
order of time alone, so where one row is refused and a later one of its device stands, the refused period is lost for good.

Example:
  goo declare --db registry.db < january.csv > report";

pub const STATEMENT: &str = "Prints the statement of an account";

pub const STATEMENT_EXAMPLE: &str = "Example:
  goo statement 1 --db registry.db";

pub const AUDIT: &str =
    "Prints what each device declared and was issued, what corrections took off both, and its carry";

pub const AUDIT_EXAMPLE: &str = "Example:
  goo audit --db registry.db";

pub const SERVE: &str = "Answers requests over HTTP on 127.0.0.1";

pub const SERVE_EXAMPLE: &str =
    "Prints `listening` and the address, answers so many connections one after another, and ends.
Exactly one of --db and --memory is given; --code, --today and --next-serial stand with --memory alone.

Example:
  goo serve --port 8080 --count 1000 --db registry.db";

pub const FILE: &str = "The file of the registry";

pub const MEMORY: &str = "A new registry in memory, which ends with the program";

pub const CODE: &str = "The code of a new registry: 1 to 99";

pub const TODAY: &str = "The date of a new registry, as 2025-03-01: 1900-01-01 to 2099-12-31";

pub const NEXT_SERIAL: &str =
    "The serial of the first certificate of a new registry: 1 to 999999999999 [default: 1]";

pub const ACCOUNT: &str = "The number of the account: 1 to 999999999";

pub const PORT: &str = "The port: 1 to 65535";

pub const COUNT: &str = "How many connections are answered: 0 to 1000000000";
