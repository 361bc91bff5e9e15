ghost use Rattle.std.specs.Prelude.{◌≡◌, ◌<◌, min, true, false, IfOk, OnErr, OnOk};
ghost use Rattle.wdl_base.specs.Answers.{
  is_answer,
  is_cut,
  is_file_name,
  is_file,
  are_files,
  is_below,
  ascend,
  body_size,
  names_size,
  files_size,
};

use crate::body::{Body, Seen};
use crate::error::{AnswerFault, NoMemory};
use crate::text::Text;
use sqlite_items::Items;
use std::alloc::Global;

/// The most bytes of standard output that are kept.
pub const OUT_LIMIT: usize = 65_536;

/// The most bytes of standard error that are kept.
pub const ERR_LIMIT: usize = 4_096;

/// The most files of an answer.
pub const FILE_COUNT: usize = 65_536;

/// The most bytes of the name of an answer's file.
pub const FILE_NAME_BYTES: usize = 1_024;

/// The most bytes of the body of an answer's file.
pub const FILE_BODY_BYTES: usize = 1_048_576;

/// The most bytes of the names of an answer's files together.
pub const FILE_NAMES_BYTES: usize = 1_048_576;

/// The most bytes of the names and bodies of an answer's files together.
pub const FILE_BYTES: usize = 2_097_152;

/// The name that marks an answer of which not all files' names are kept. No file has it.
pub const CUT_NAME: &str = ".";

/// How a job ended: its status, what it wrote to its standard streams, and the files that it left.
///
/// At most 65,536 bytes of standard output and 4,096 of standard error are kept. The files are at
/// most 65,536, with names of 1 to 1,024 bytes that are relative, in byte order, distinct and
/// neither `_stdout` nor `_stderr`. A body has at most 1,048,576 bytes, the names together at most
/// 1,048,576, and names and bodies together at most 2,097,152.
#[derive(Debug, Drop)]
pub struct Answer {
    pub status: u8,
    pub out: Body,
    pub err: Body,
    pub files: Items<Seen>,
    pub ghost kept: { is_answer out err files ≡ true },
}

/// Whether a file of an answer may have this name.
pub fn is_kept_name(name: &Text) -> bool
    ensures { result ≡ is_file_name name.now }
{
    let text = name.as_str();
    match text.as_bytes() {
        [] => false,
        [first, ..] => {
            !(*first == b'/')
                && text.len() <= FILE_NAME_BYTES
                && !name.is("_stdout")
                && !name.is("_stderr")
        }
    }
}

fn is_kept_file(file: &Seen) -> bool
    ensures { result ≡ is_file file.now }
{
    is_kept_name(&file.name) && file.body.is_within(FILE_BODY_BYTES)
}

fn are_kept_files(files: &[Seen]) -> bool
    ensures { result ≡ are_files files.now }
{
    for file in files {
        if !is_kept_file(file) {
            return false;
        }
    }
    true
}

fn are_above(name: &Text, mut files: &[Seen]) -> bool
    ensures { result ≡ is_below name.now files.entry.now }
{
    let mut last = name;
    while let [file, rest @ ..] = files {
        if !last.is_before(&file.name) {
            return false;
        }
        last = &file.name;
        files = rest;
    }
    true
}

fn do_ascend(files: &[Seen]) -> bool
    ensures { result ≡ ascend files.now }
{
    match files {
        [] => true,
        [first, rest @ ..] => are_above(&first.name, rest),
    }
}

fn kept_size(body: &Body) -> usize
    ensures { result ≡ body_size body.now }
{
    match body {
        Body::Bytes(bytes) => bytes.len(),
        Body::Long => 0,
    }
}

/// The bytes of the names, or the last number where they are more.
fn size_of_names(files: &[Seen]) -> usize
    ensures { result ≡ min (names_size files.now) 18446744073709551615 }
{
    let mut total: usize = 0;
    for file in files {
        total = total.saturating_add(file.name.as_str().len());
    }
    total
}

/// The bytes of the names and bodies, or the last number where they are more.
fn size_of_files(files: &[Seen]) -> usize
    ensures { result ≡ min (files_size files.now) 18446744073709551615 }
{
    let mut total: usize = 0;
    for file in files {
        total = total
            .saturating_add(file.name.as_str().len())
            .saturating_add(kept_size(&file.body));
    }
    total
}

fn is_kept(out: &Body, err: &Body, files: &[Seen]) -> bool
    ensures { result ≡ is_answer out.now err.now files.now }
{
    out.is_within(OUT_LIMIT)
        && err.is_within(ERR_LIMIT)
        && files.len() <= FILE_COUNT
        && are_kept_files(files)
        && do_ascend(files)
        && size_of_names(files) <= FILE_NAMES_BYTES
        && size_of_files(files) <= FILE_BYTES
}

fn has_mark(files: &[Seen]) -> bool
    ensures { result ≡ is_cut files.now }
{
    for file in files {
        if file.name.is(CUT_NAME) {
            return true;
        }
    }
    false
}

fn copy_all(alloc: Global, files: &[Seen]) -> Result<Items<Seen>, NoMemory>
    ensures { IfOk result (λ all. all ≡ files.now) }
{
    let mut all = Items::new(alloc);
    for file in files {
        all.push(file.copy(alloc)?)?;
    }
    Ok(all)
}

impl Answer {
    /// The answer of these parts. It is refused as `NotAnAnswer` exactly where a limit or a rule of
    /// `Answer` is broken.
    pub fn new(status: u8, out: Body, err: Body, files: Items<Seen>) -> Result<Answer, AnswerFault>
        ensures status { IfOk result (λ a. a.status ≡ status) }
        ensures out { IfOk result (λ a. a.out ≡ out) }
        ensures err { IfOk result (λ a. a.err ≡ err) }
        ensures files { IfOk result (λ a. a.files ≡ files) }
        ensures accepted { OnOk result (is_answer out err files ≡ true) }
        ensures refused { OnErr result (is_answer out err files ≡ false) }
    {
        if is_kept(&out, &err, files.as_slice()) {
            return Ok(Answer {
                status,
                out,
                err,
                files,
            });
        }
        Err(AnswerFault::NotAnAnswer)
    }

    /// Whether the command left files whose names are not kept. A file named `.`, which no command
    /// can leave, says so.
    pub fn is_cut(&self) -> bool
        ensures { result ≡ is_cut self.now.files }
    {
        has_mark(self.files.as_slice())
    }

    /// A copy of the answer, with its files.
    pub fn copy(&self, alloc: Global) -> Result<Answer, NoMemory>
        ensures { IfOk result (λ a. a ≡ self.now) }
    {
        Ok(Answer {
            status: self.status,
            out: self.out.copy(alloc)?,
            err: self.err.copy(alloc)?,
            files: copy_all(alloc, self.files.as_slice())?,
        })
    }
}
