// What `gmc --help` says.
use std::io;

const TEXT: &str = "gmc [JOURNAL]
Does the commands of a journal, one to a line, from the file JOURNAL or from standard input.
Blank lines and lines that start with # are passed over.

  check SHEET                             the row count of a day sheet
  open DEMANDS FLAGS                      opens the book: two lists with commas, - for an empty one
  post CHARGE DAY RATE SHEET              bills every coordinator; answers the sum in cents
  quote CHARGE COORDINATOR RATE SHEET     one coordinator's quantity and cents
  adjust COORDINATOR CENTS                adds a signed amount to a market balance
  pay market|rc COORDINATOR CENTS         subtracts a payment on that side
  assess CHARGE MINIMUM                   spreads the yearly RC charge, in cents
  default COORDINATOR CENTS               lets the others carry an unpaid RC amount
  balances COORDINATOR                    market and RC balance, in cents
  totals                                  the sums of both
  exclusion market-services|system-operations COORDINATOR MARK
  ramp-in COORDINATOR PERCENT
  grandfathering COORDINATOR RESOURCE ALLOWANCE

CHARGE is market-services, system-operations, bid-segment, tor or trade.
SHEET is a file's path, or hex: and the bytes in hexadecimal.
Each command prints one line, beginning with its line's number in the journal:
  N COMMAND ok ANSWER
  N COMMAND refused QUESTION LAYER PLACE REASON
  N malformed REASON
The status is 1 if a line was malformed.
";

pub fn print(rt: &HostRuntime) -> io::Result<()> {
    print!(rt; "{TEXT}")
}
