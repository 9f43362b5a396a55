// Answers: what is to be written, and how the program ends then.
ghost use Rattle.std.specs.Prelude.{
  ◌≡◌,
  ◌≤◌,
  ◌↔◌,
  ◌++◌,
  [],
  IfErr,
  IfOk,
  IfSome,
  IsSomeAnd,
  Some,
  drop,
  string_bytes,
  take,
  vec_len,
};
ghost use Rattle.evidence.specs.Refusal.{refusal_of};
ghost use Rattle.command_line.specs.declared.status.Status.TheVariants.{Done};
ghost use Rattle.command_line.specs.Lines.{usage_answer, absent_answer, refused_answer};
ghost use Rattle.command_line.specs.Lines.{line_answer, refusal_answer};
ghost use Rattle.command_line.specs.Lines.{findings_answer};
ghost use Rattle.command_line.specs.Lines.{status_of_undone};
ghost use Rattle.command_line.specs.Heard.{Tells};
ghost use Rattle.input_causes.specs.Causes.{cause_text};

use crate::status::Status;
use evidence::InputFault;
use input_causes::Cause;
use std::alloc::{AllocError, Global};
use std::marker::Model;

/// A file that is to be written.
#[derive(Drop)]
pub struct OutputFile {
    name: String,
    bytes: Vec<u8>,
}

impl Model for OutputFile {
    ghost use Rattle.std.specs.Prelude.{List, ℕ, string_bytes};

    ghost Value = { List ℕ × List ℕ };

    ghost view = { λ file. (string_bytes file.name, file.bytes.items) };
}

impl OutputFile {
    /// The file with this name and these bytes.
    pub fn new(name: String, bytes: Vec<u8>) -> OutputFile
        ensures { result ≡ (string_bytes name, bytes.items) }
    {
        OutputFile { name, bytes }
    }

    /// The file's name.
    pub fn name(&self) -> &str
        ensures { result.now ≡ self.now.0 }
    {
        self.name.as_str()
    }

    /// All its bytes.
    pub fn bytes(&self) -> &[u8]
        ensures { result.now ≡ self.now.1 }
    {
        self.bytes.as_slice()
    }
}

/// An answer, made whole before any of it is written. Where it says that an input was refused, or
/// isn't there, it has that as a value, too, of which contracts see that the answer is its line.
#[derive(Drop)]
pub struct Answer {
    status: Status,
    files: Vec<OutputFile>,
    ahead: usize,
    output: Vec<u8>,
    fault: Option<InputFault>,
}

impl Model for Answer {
    ghost use Rattle.std.specs.Prelude.{◌≤◌, vec_len};
    ghost use Rattle.command_line.specs.Heard.{Tells};
    ghost use Rattle.command_line.specs.Lines.{Answer};

    ghost Value = { Answer };

    ghost view = { λ a. record {
      status = a.status;
      files = a.files.items;
      ahead = a.ahead;
      output = a.output.items;
    } };

    ghost invariant = { λ a. (a.ahead ≤ vec_len a.files) × Tells a.fault (record {
      status = a.status;
      files = a.files.items;
      ahead = a.ahead;
      output = a.output.items;
    }) };
}

impl Answer {
    /// The answer of these lines: where there are none, nothing was found.
    pub fn findings(alloc: Global, lines: String) -> Answer
        ensures { result ≡ findings_answer (string_bytes lines) }
    {
        Answer {
            status: if lines.is_empty() {
                Status::Done
            } else {
                Status::Findings
            },
            files: Vec::new(alloc),
            ahead: 0,
            output: lines.into_bytes(),
            fault: None,
        }
    }

    /// The answer that writes these files, and prints these lines.
    pub fn of_files(files: Vec<OutputFile>, lines: String) -> Answer
        ensures { result ≡ record {
          status = Done;
          files = files.items;
          ahead = 0;
          output = string_bytes lines;
        } }
    {
        Answer::of_files_in_turn(files, 0, lines)
    }

    /// The answer that writes these files, so many of them ahead of the others, and prints these
    /// lines.
    pub fn of_files_in_turn(files: Vec<OutputFile>, ahead: usize, lines: String) -> Answer
        requires { ahead ≤ vec_len files }
        ensures { result ≡ record {
          status = Done;
          files = files.items;
          ahead = ahead;
          output = string_bytes lines;
        } }
    {
        Answer {
            status: Status::Done,
            files,
            ahead,
            output: lines.into_bytes(),
            fault: None,
        }
    }

    /// The answer of a play with these files and lines, of which the last say what is left.
    pub fn of_play(
        files: Vec<OutputFile>,
        mut lines: String,
        undone: &str,
    ) -> Result<Answer, AllocError>
        ensures { IfOk result (λ answer. answer ≡ record {
          status = status_of_undone undone.now;
          files = files.items;
          ahead = 0;
          output = string_bytes lines ++ undone.now;
        }) }
    {
        lines.push_str(undone)?;
        Ok(Answer {
            status: if undone.is_empty() {
                Status::Done
            } else {
                Status::Undone
            },
            files,
            ahead: 0,
            output: lines.into_bytes(),
            fault: None,
        })
    }

    /// The answer to an invalid command line.
    pub fn usage(alloc: Global) -> Result<Answer, AllocError>
        ensures { IfOk result (λ answer. answer ≡ usage_answer) }
    {
        Ok(Answer {
            status: Status::Usage,
            files: Vec::new(alloc),
            ahead: 0,
            output: format!(in alloc; "usage\n")?.into_bytes(),
            fault: None,
        })
    }

    /// The answer where the named file isn't there.
    pub fn absent(alloc: Global, name: &str) -> Result<Answer, AllocError>
        ensures { IfOk result (λ answer. answer ≡ absent_answer name.now) }
    {
        let file = String::from_str(alloc, name)?;
        Ok(Answer {
            status: Status::Absent,
            files: Vec::new(alloc),
            ahead: 0,
            output: format!(in alloc; "absent {name}\n")?.into_bytes(),
            fault: Some(InputFault::Absent(file)),
        })
    }

    /// The answer where the named file is refused at a place.
    pub fn refused(
        alloc: Global,
        name: &str,
        place: u64,
        cause: Cause,
    ) -> Result<Answer, AllocError>
        ensures { IfOk result
            (λ answer. answer ≡ refused_answer name.now place (cause_text cause)) }
    {
        let file = String::from_str(alloc, name)?;
        let text = cause.text(alloc)?;
        Ok(Answer {
            status: Status::Refused,
            files: Vec::new(alloc),
            ahead: 0,
            output: format!(in alloc; "refused {name} {place} {text}\n")?.into_bytes(),
            fault: Some(InputFault::Refused { file, place, cause }),
        })
    }

    /// The answer with this status and output, which writes no file.
    pub fn of_text(alloc: Global, status: Status, output: Vec<u8>) -> Answer
        ensures { result ≡ record {
          status = status;
          files = [];
          ahead = 0;
          output = output.items;
        } }
    {
        Answer {
            status,
            files: Vec::new(alloc),
            ahead: 0,
            output,
            fault: None,
        }
    }

    /// The answer of this one line.
    pub fn line(alloc: Global, text: &str) -> Result<Answer, AllocError>
        ensures { IfOk result (λ answer. answer ≡ line_answer Done text.now) }
    {
        Ok(Answer {
            status: Status::Done,
            files: Vec::new(alloc),
            ahead: 0,
            output: format!(in alloc; "{text}\n")?.into_bytes(),
            fault: None,
        })
    }

    /// The answer where what an audit goes on is refused; a failed read and running out of memory
    /// have none.
    pub fn of_fault(alloc: Global, fault: &InputFault) -> Result<Answer, Fault>
        ensures ok { IfOk result (λ answer. IsSomeAnd (refusal_of fault.now)
            (λ refusal. answer ≡ refusal_answer refusal)) }
        ensures err { IfErr result (λ why. (why ≡ Fault.ReadFault) ↔
            (fault.now ≡ InputFault.ReadFault)) }
    {
        match fault {
            InputFault::Absent(file) => Ok(Answer::absent(alloc, file.as_str())?),
            InputFault::Refused { file, place, cause } => {
                Ok(Answer::refused(alloc, file.as_str(), *place, *cause)?)
            }
            InputFault::ReadFault => Err(Fault::ReadFault),
            InputFault::Memory => Err(Fault::Memory),
        }
    }

    /// How the program ends once the answer is written.
    pub fn status(&self) -> Status
        ensures { result ≡ self.now.status }
    {
        self.status
    }

    /// The files that are put in place before the others are begun, in order.
    pub fn files_ahead(&self) -> &[OutputFile]
        ensures { result.now ≡ take self.now.ahead self.now.files }
    {
        &self.files[..self.ahead]
    }

    /// The others, in order.
    pub fn other_files(&self) -> &[OutputFile]
        ensures { result.now ≡ drop self.now.ahead self.now.files }
    {
        &self.files[self.ahead..]
    }

    /// Why an input was refused, or that it isn't there, where the answer says so.
    pub fn fault(&self) -> Option<&InputFault>
        ensures { IfSome result (λ fault. Tells (Some fault.now) self.now) }
    {
        self.fault.as_ref()
    }

    /// The same, moved out of the answer.
    pub fn into_fault(self) -> Option<InputFault>
        ensures { Tells result self }
    {
        self.fault
    }

    /// The whole output.
    pub fn output(&self) -> &[u8]
        ensures { result.now ≡ self.now.output }
    {
        self.output.as_slice()
    }
}

/// Why there is no answer.
#[derive(Clone, Copy, Debug, PartialEq, Eq)]
pub enum Fault {
    ReadFault,
    Memory,
}

impl From<AllocError> for Fault {
    ghost use Rattle.std.specs.Prelude.{◌≡◌};
    ghost use Rattle.command_line.specs.declared.answer.Fault.TheVariants.{Memory};

    ghost from_gives = { λ _ e. e ≡ Memory };

    fn from(_: AllocError) -> Fault {
        Fault::Memory
    }
}
