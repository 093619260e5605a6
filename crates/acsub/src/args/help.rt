//! The texts of the help.

/// The two forms of a command line.
pub static USAGE: &str = "\
acsub MODE RULES [OPTION..] [FILE..]
       acsub MODE -e PATTERN [-r REPLACEMENT] .. [OPTION..] [FILE..]";

/// The end of the short help: an example.
pub static AFTER_HELP: &str = "\
Example:
  printf 'fox\\tsloth\\n' > words.tsv
  echo 'The fox ran.' | acsub replace words.tsv --text    # The sloth ran.
  echo 'The fox ran.' | acsub replace -e fox -r sloth     # The sloth ran.

--help says more: modes, kinds, rule files and statuses.
";

/// The end of the long help: what each mode writes, which match each kind takes, the forms of a rule file, an example, and the
/// statuses.
pub static AFTER_LONG_HELP: &str = "\
Modes:
  replace  The input, with each match replaced
  list     A line 'number start end' for each match: pattern and places from 0, in bytes
  overlap  Such a line for each occurrence, overlapping ones too; needs the standard kind
  mask     The input, with each byte that lies in an occurrence replaced by '*'; needs the standard kind

Kinds:
  standard          The match that ends first
  leftmost-first    The one that starts first, and of those the first in the rule file
  leftmost-longest  The one that starts first, and of those the longest

Rule files:
  hex     A line 'hex TAB hex' for each pattern and its replacement, two hex digits a byte
  --text  A line 'pattern TAB replacement', or in each line a 'pattern' alone, which is replaced
          by nothing; CR LF ends a line as LF does, and no byte has another meaning
  --text --escapes
          The same, where \\t is a TAB, \\n a LF, \\r a CR, \\\\ a backslash, \\0 a NUL, and \\xHH the byte
          of two hex digits
  -e, -r  Text, where a pattern or a replacement has no TAB, LF or CR of its own; with --escapes as above

Example:
  printf 'fox\\tsloth\\n' > words.tsv
  echo 'The fox ran.' | acsub replace words.tsv --text    # The sloth ran.
  echo 'The fox ran.' | acsub replace -e fox -r sloth     # The sloth ran.
  acsub replace words.tsv --text -i *.txt                 # Rewrites the files

Status:
  0 done, 1 nothing matched, with --fail-if-none, 2 words or settings, 3 the rule file,
  4 a limit of a build or a mask that a pattern has, 5 a read failed or a FILE can't be read,
  6 a write or the flush failed, 7 out of memory, 8 the input is too long
  On a terminal, and elsewhere by ACSUB_HINTS=1, a second line says what to do
";
