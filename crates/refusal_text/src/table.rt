//! What is wrong with a deck, and what to do, by the number of its refusal; and the same of a job, and of a session, by the number of its fault.
ghost use Rattle.std.specs.Prelude.{◌≡◌, IfSome};

/// A refusal in words.
pub struct Row {
    /// Its letter and its number: C4, N1, P20, F1, S2.
    pub letter: u8,
    pub number: u8,
    pub wrong: &'static str,
    pub to_do: &'static str,
}

/// In the order of their numbers.
static ROWS: [Row; 64] = [
    Row {
        letter: b'C',
        number: 1,
        wrong: "a card has over 80 columns",
        to_do: "shorten it; an operand goes on after a comma, on a card with // and blanks",
    },
    Row {
        letter: b'C',
        number: 2,
        wrong: "a card has a byte outside 20 to 7E (hexadecimal)",
        to_do: "look for a tab or an accented letter",
    },
    Row {
        letter: b'C',
        number: 3,
        wrong: "an operand ends with a comma, and no continuation follows",
        to_do: "drop it, or go on with a card of // and a blank",
    },
    Row {
        letter: b'C',
        number: 4,
        wrong: "a continuation begins before column 4 or after column 16",
        to_do: "begin it in columns 4 to 16",
    },
    Row {
        letter: b'C',
        number: 5,
        wrong: "an apostrophe is open at the end of a card",
        to_do: "close it on its card; write one within a text twice",
    },
    Row {
        letter: b'C',
        number: 6,
        wrong: "a card has a name and no operation",
        to_do: "put JOB, EXEC or DD after the name",
    },
    Row {
        letter: b'C',
        number: 7,
        wrong: "data are before the first EXEC statement",
        to_do: "move them after the step that reads them",
    },
    Row {
        letter: b'N',
        number: 1,
        wrong: "a name, or a part of one between periods, is empty",
        to_do: "write the name",
    },
    Row {
        letter: b'N',
        number: 2,
        wrong: "a name is too long",
        to_do: "8 characters; 44 in all for a data set, 35 for a group's base",
    },
    Row {
        letter: b'N',
        number: 3,
        wrong: "a name has a bad character",
        to_do: "A to Z, digits, #, @, $, no digit first; in a data set's name also hyphens",
    },
    Row {
        letter: b'N',
        number: 4,
        wrong: "a generation's number is 0000, its version not 00, or a relative number over 255",
        to_do: "BASE.G0001V00, BASE(+1)",
    },
    Row {
        letter: b'P',
        number: 1,
        wrong: "the first statement is no JOB statement, or a second one follows",
        to_do: "begin with JOB; one job to a ./ READ block",
    },
    Row {
        letter: b'P',
        number: 2,
        wrong: "a JOB statement, or a PROC statement in the deck, has no name",
        to_do: "write one from column 3 on",
    },
    Row {
        letter: b'P',
        number: 3,
        wrong: "an operation is unknown, or a PEND ends no procedure",
        to_do: "JOB, EXEC, DD; PROC and PEND round a procedure",
    },
    Row {
        letter: b'P',
        number: 4,
        wrong: "a keyword is unknown on this statement",
        to_do: "compare with the keywords of its statement",
    },
    Row {
        letter: b'P',
        number: 5,
        wrong: "a keyword is given twice, DSN and DSNAME being one, VOL and VOLUME too",
        to_do: "drop one",
    },
    Row {
        letter: b'P',
        number: 6,
        wrong: "a value has the wrong form or is out of its range",
        to_do: "compare with docs/JCL.md",
    },
    Row {
        letter: b'P',
        number: 7,
        wrong: "keywords or words exclude one another, as * and SYSOUT",
        to_do: "drop one of them; docs/REFUSALS.md has a list",
    },
    Row {
        letter: b'P',
        number: 8,
        wrong: "parentheses are not balanced",
        to_do: "count them",
    },
    Row {
        letter: b'P',
        number: 9,
        wrong: "too many positional operands, or one after a keyword",
        to_do: "JOB has two, DD one, EXEC one, PROC none",
    },
    Row {
        letter: b'P',
        number: 10,
        wrong: "EXEC has neither a program nor a procedure, or both",
        to_do: "PGM=name, PROC=name, or the procedure's name alone",
    },
    Row {
        letter: b'P',
        number: 11,
        wrong: "the job, or a procedure that is called, has no step",
        to_do: "add an EXEC statement",
    },
    Row {
        letter: b'P',
        number: 12,
        wrong: "a DD statement other than JOBLIB is before the first EXEC",
        to_do: "move it after its EXEC",
    },
    Row {
        letter: b'P',
        number: 13,
        wrong: "COND has over eight tests",
        to_do: "drop some; EVEN and ONLY do not count",
    },
    Row {
        letter: b'P',
        number: 14,
        wrong: "a procedure has cards of data, after DD *, DATA or loose",
        to_do: "give them after the call: //procstep.dd DD *",
    },
    Row {
        letter: b'P',
        number: 15,
        wrong: "a DD without a name has none before it",
        to_do: "give the first DD of a concatenation its name",
    },
    Row {
        letter: b'P',
        number: 16,
        wrong: "the session has no unit of the name",
        to_do: "correct the name, or add a ./ UNIT statement",
    },
    Row {
        letter: b'P',
        number: 17,
        wrong: "VOLUME names several serials",
        to_do: "one volume to a data set",
    },
    Row {
        letter: b'P',
        number: 18,
        wrong: "a data set's name has a member in parentheses",
        to_do: "leave the member out: there are no partitioned sets",
    },
    Row {
        letter: b'P',
        number: 19,
        wrong: "left out of this profile",
        to_do: "leave it out (docs/JCL.md says what there is)",
    },
    Row {
        letter: b'P',
        number: 20,
        wrong: "there is no procedure of the name",
        to_do: "./ PROC in the session, or PROC and PEND in the deck",
    },
    Row {
        letter: b'P',
        number: 21,
        wrong: "a procedure calls a procedure",
        to_do: "write its steps out",
    },
    Row {
        letter: b'P',
        number: 22,
        wrong: "a procedure in the deck has no PEND, or another begins in it",
        to_do: "end it with // PEND",
    },
    Row {
        letter: b'P',
        number: 23,
        wrong: "an override goes back to an earlier step of the procedure",
        to_do: "overrides come in the order of its steps",
    },
    Row {
        letter: b'P',
        number: 24,
        wrong: "the procedure has no step of that name, or none was called",
        to_do: "compare with the names of its EXEC statements",
    },
    Row {
        letter: b'P',
        number: 25,
        wrong: "the deck has a sixteenth procedure",
        to_do: "put it into the session, by ./ PROC",
    },
    Row {
        letter: b'P',
        number: 31,
        wrong: "a symbol has no value",
        to_do: "give it one on the EXEC or the PROC statement",
    },
    Row {
        letter: b'P',
        number: 32,
        wrong: "an operand has over 1,024 characters, before or after its symbols got their values",
        to_do: "shorten it",
    },
    Row {
        letter: b'P',
        number: 40,
        wrong: "a reference is to no DD of the job, or to SYSOUT or cards",
        to_do: "compare the names; refer to a DD of a data set",
    },
    Row {
        letter: b'P',
        number: 41,
        wrong: "a reference is to its own DD or a later one",
        to_do: "name a DD before it",
    },
    Row {
        letter: b'P',
        number: 42,
        wrong: "a test names no earlier step",
        to_do: "name an earlier step: COND looks back",
    },
    Row {
        letter: b'P',
        number: 43,
        wrong: "the job has over 255 steps",
        to_do: "make two jobs of it",
    },
    Row {
        letter: b'P',
        number: 44,
        wrong: "a step has over 64 DDs",
        to_do: "make two steps of it",
    },
    Row {
        letter: b'P',
        number: 45,
        wrong: "a step has over five DDNAMEs",
        to_do: "write a later DD's definition in place of DDNAME",
    },
    Row {
        letter: b'P',
        number: 46,
        wrong: "the job names over 255 data sets",
        to_do: "make two jobs of it",
    },
    Row {
        letter: b'Q',
        number: 1,
        wrong: "fewer records of the queue are free than the job needs",
        to_do: "let jobs that wait end",
    },
    Row {
        letter: b'F',
        number: 1,
        wrong: "a data set is missing",
        to_do: "check its name; see which step deletes it; NEW makes it",
    },
    Row {
        letter: b'F',
        number: 2,
        wrong: "the volume has a data set of this name",
        to_do: "delete it in an earlier step, or DISP=OLD or MOD",
    },
    Row {
        letter: b'F',
        number: 3,
        wrong: "the catalog has the name for another volume, or as a group",
        to_do: "UNCATLG before, or KEEP",
    },
    Row {
        letter: b'F',
        number: 4,
        wrong: "the catalog has no entry to remove",
        to_do: "KEEP or DELETE in place of UNCATLG",
    },
    Row {
        letter: b'F',
        number: 5,
        wrong: "no such generation or group",
        to_do: "./ GROUP; count from the newest: 0, -1, -2",
    },
    Row {
        letter: b'F',
        number: 6,
        wrong: "there is no primary space",
        to_do: "less SPACE, or a unit with more volumes",
    },
    Row {
        letter: b'F',
        number: 7,
        wrong: "SPACE is missing for a data set that is to be made",
        to_do: "SPACE; for an existing set DISP=OLD",
    },
    Row {
        letter: b'F',
        number: 8,
        wrong: "the data set is gone at its disposition",
        to_do: "delete it once",
    },
    Row {
        letter: b'F',
        number: 9,
        wrong: "a generation's number would be above 9999",
        to_do: "begin a group with another base",
    },
    Row {
        letter: b'F',
        number: 10,
        wrong: "the volume is unknown",
        to_do: "./ VOLUME; compare the serial",
    },
    Row {
        letter: b'S',
        number: 1,
        wrong: "no statement of this profile",
        to_do: "look for a misspelt word, small letters, a tab, no ./, or a line outside a block",
    },
    Row {
        letter: b'S',
        number: 2,
        wrong: "a field is missing, too many, of the wrong form or out of its range",
        to_do: "compare it with docs/SESSION.md",
    },
    Row {
        letter: b'S',
        number: 3,
        wrong: "it is defined twice",
        to_do: "drop the second one",
    },
    Row {
        letter: b'S',
        number: 4,
        wrong: "a block without ./ END",
        to_do: "end the block; a line ./END is a card",
    },
    Row {
        letter: b'S',
        number: 5,
        wrong: "over 1,048,576 bytes",
        to_do: "make two sessions of it",
    },
    Row {
        letter: b'S',
        number: 6,
        wrong: "standard input could not be read any further",
        to_do: "give the session as a file; what was read whole was run",
    },
    Row {
        letter: b'S',
        number: 7,
        wrong: "standard output could not be written any further",
        to_do: "what was written is the beginning of the listing",
    },
    Row {
        letter: b'S',
        number: 8,
        wrong: "a configuration statement after the first event",
        to_do: "move it up, before the first event",
    },
];

/// What is said of a refusal, or of a fault of a job or of a session.
pub fn row_of(letter: u8, number: u8) -> Option<&'static Row>
    ensures { IfSome result (λ row. (row.now.letter ≡ letter) × (row.now.number ≡ number)) }
{
    for row in ROWS.iter() {
        if row.letter == letter && row.number == number {
            return Some(row);
        }
    }
    None
}
