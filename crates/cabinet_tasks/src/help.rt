//! What people are told of journals and options.

/// The help, in one screen.
pub const HELP: &str = "\
cabinet [JOURNAL]          posts a journal; with no name it reads standard input
cabinet --report [JOURNAL]
                           prints the host's monthly report in place of the log
cabinet --pack TEXT FILE
                           writes a request file from a text of lines
                           ACCOUNT PERCENTAGE SAVINGS CLASS SIZE KIND [REMARK ..]
cabinet --show FILE        prints a request file, or says what is wrong with it
cabinet --help             prints this

A journal has one statement to a line; blank lines and lines that begin with #
are skipped. Its first three statements, in this order and nowhere else:
  method value-stack | method volumetric
  book table PLACES  | book image BYTES
  open SMALLEST plain | open SMALLEST farm    SMALLEST is 1 or 10 lines
Then any of:
  rates R1 .. R16        volumetric rates of the bills that follow
  line ACCOUNT PERCENTAGE SAVINGS CLASS SIZE KIND
                         one more line in hand; 6 percent is 6000, 10 percent
                         savings 1000; SIZE is S or L, KIND M or X
  request FILE           the lines of a request file in the place of those
  enrol                  enrols the lines in hand; then none are in hand
  reading UNITS          opens the next period
  bill ACCOUNT CENTS     final ACCOUNT CENTS
  disburse ACCOUNT UNITS from the host's bank
  lapse                  forfeits the host's bank
  close                  closes the period
Status 1: the journal cannot be understood (nothing is posted), or a file fails.
";
