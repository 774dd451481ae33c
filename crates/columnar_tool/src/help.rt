//! The page of all uses.

/// What `--help` prints.
pub const HELP: &str = "\
Tests stores of columns against a type, and prints their rows.

  columnar_tool check [--rust] [--stores] TYPE FILE..
                                    says whether each file is accepted
  columnar_tool rows [--rust] [--stores] TYPE FILE..
                                    the same, with the number of rows
  columnar_tool cat [FLAG..] TYPE FILE..
                                    prints the rows, each as a line of JSON
  columnar_tool cat [FLAG..] TYPE FILE FROM..TO
                                    the rows from FROM up to, not with, TO;
                                    either may be left out
  columnar_tool make [--rust] TYPE  prints the store of the rows that the lines
                                    of the input write as JSON
  columnar_tool slices [--rust] TYPE
                                    prints the name of each slice of the type,
                                    and the size of its elements
  columnar_tool table FILE          prints where each slice begins and ends
  columnar_tool --help              prints this page
  columnar_tool --version           prints the version

TYPE is the text of a type, such as '(u64, String, Option<u32>)', or
@FILE:NAME, a struct or an enum that a file of Rust source declares.
Flags stand before TYPE or after the files:
--rust    the ends of the lists of Vec<T> are numbers, as in the Rust crate
--stores  a file holds stores one after another; each counts by itself
--csv     cat prints each row as a record of CSV, after the names of the fields
--json    cat prints each row as a line of JSON, as without a flag
--fields A,B
          cat prints these fields of a struct, in this order

The status is 0 if all went well; 1 if a file is not accepted or cannot be
read, if a row has no text or is not there, if a line is no row, or if memory
or the output fails; 2 if the arguments are no use of the program or TYPE is
no type.
";

/// What `--version` prints: the version of the Rust crate whose stores the program reads.
pub const VERSION: &str = "columnar_tool 0.13.3\n";

/// What is written if the arguments are no use of the program.
pub const USAGE: &str =
    "usage: columnar_tool check|rows|cat [FLAG..] TYPE FILE..; see columnar_tool --help";
