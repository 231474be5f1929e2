// The rules' table as a list of lines: proofs/LinesLaw.antt proves that an update is refused with the first line that fails, and specs/Alone.antt has for
// each line a case in which it alone fails. specs/Printed.antt has lines of text that the check program prints.
#![tactic(auto)]
