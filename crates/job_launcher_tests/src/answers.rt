//! Commands that are really run, and what is told of them in one line each.
use job_launcher::{Launching, Notes, ShellLauncher};
use sqlite_items::Items;
use std::alloc::Global;
use std::fs::{File, Files};
use std::process::Processes;
use std::{fs, io};
use wdl_port::{LaunchFault, Launcher};
use wdl_value::{
    Answer, Attribute, Body, Laid, Name, NoMemory, Place, Request, Seen, Segment, Text,
};

fn text(alloc: Global, s: &str) -> Result<Text, NoMemory> {
    match Text::new(alloc, s) {
        Ok(text) => Ok(text),
        Err(_) => Err(NoMemory),
    }
}

// The place of a job whose directory this is, below the folder where the test runs.
fn place_of(alloc: Global, dir: &str) -> Result<Place, NoMemory> {
    let mut place = Items::new(alloc);
    for _ in dir.split('/') {
        place.push(Segment::Index(0))?;
    }
    Ok(place)
}

fn attribute(alloc: Global, name: &str, value: &str) -> Result<Attribute, NoMemory> {
    match Name::new(alloc, name) {
        Ok(name) => Ok(Attribute {
            name,
            value: text(alloc, value)?,
        }),
        Err(_) => Err(NoMemory),
    }
}

fn attributes(alloc: Global) -> Result<Items<Attribute>, NoMemory> {
    let mut all = Items::new(alloc);
    all.push(attribute(alloc, "cpu", "1.5")?)?;
    all.push(attribute(alloc, "docker", "a:1\nb:2")?)?;
    Ok(all)
}

fn inputs(alloc: Global) -> Result<Items<Text>, NoMemory> {
    let mut all = Items::new(alloc);
    all.push(text(alloc, "/data/a  b")?)?;
    all.push(text(alloc, "c\nd")?)?;
    Ok(all)
}

// A request that lays down one file, and reads what the command leaves.
fn bare_request(alloc: Global, dir: &str, command: &str) -> Result<Request, NoMemory> {
    let mut files = Items::new(alloc);
    files.push(Laid {
        name: text(alloc, ".laid")?,
        body: text(alloc, "x\n")?,
    })?;
    Ok(Request {
        place: place_of(alloc, dir)?,
        attempt: 0,
        dir: text(alloc, dir)?,
        command: text(alloc, command)?,
        files,
        attributes: Items::new(alloc),
        inputs: Items::new(alloc),
        reads: true,
    })
}

// The same; behind `%` it reads nothing, and behind `+` it has attributes and inputs.
fn request_of(alloc: Global, dir: &str, command: &str) -> Result<Request, NoMemory> {
    if let Some(command) = command.strip_prefix('%') {
        let mut request = bare_request(alloc, dir, command)?;
        request.reads = false;
        return Ok(request);
    }
    if let Some(command) = command.strip_prefix('+') {
        let mut request = bare_request(alloc, dir, command)?;
        request.attributes = attributes(alloc)?;
        request.inputs = inputs(alloc)?;
        return Ok(request);
    }
    bare_request(alloc, dir, command)
}

// Workers share a launcher.
fn launch<L: Launcher + Sync>(
    launcher: &L,
    alloc: Global,
    dir: &str,
    command: &str,
) -> Result<Answer, LaunchFault> {
    let request = request_of(alloc, dir, command)?;
    launcher.launch(alloc, &request)
}

// A body as it is, with `|` for each newline; `#` and its length where it has more than 100 bytes;
// `!` where it was too long.
fn add_body(alloc: Global, all: &mut Vec<u8>, body: &Body) -> Result<(), NoMemory> {
    match body {
        Body::Long => all.push(b'!')?,
        Body::Bytes(bytes) if bytes.len() > 100 => {
            let length = bytes.len();
            all.extend_from_slice(format!(in alloc; "#{length}")?.as_bytes())?;
        }
        Body::Bytes(bytes) => {
            for byte in bytes.as_slice() {
                all.push(if *byte == b'\n' { b'|' } else { *byte })?;
            }
        }
    }
    Ok(())
}

// ` NAME=BODY NAME=BODY ..`
fn add_files(alloc: Global, all: &mut Vec<u8>, files: &[Seen]) -> Result<(), NoMemory> {
    for file in files {
        all.push(b' ')?;
        all.extend_from_slice(file.name.as_str().as_bytes())?;
        all.push(b'=')?;
        add_body(alloc, all, &file.body)?;
    }
    Ok(())
}

// ` N files` and the last of them.
fn add_count(alloc: Global, all: &mut Vec<u8>, files: &[Seen]) -> Result<(), NoMemory> {
    let count = files.len();
    all.extend_from_slice(format!(in alloc; " {count} files")?.as_bytes())?;
    add_files(alloc, all, &files[files.len().saturating_sub(1)..])
}

// `STATUS <OUT> <ERR> NAME=BODY NAME=BODY ..`, and ` cut` at the end where the answer is; of more
// than 20 files their number and the last.
fn line_of(alloc: Global, answer: &Answer) -> Result<Vec<u8>, NoMemory> {
    let status = answer.status;
    let mut all = Vec::new(alloc);
    all.extend_from_slice(format!(in alloc; "{status} <")?.as_bytes())?;
    add_body(alloc, &mut all, &answer.out)?;
    all.extend_from_slice(b"> <")?;
    add_body(alloc, &mut all, &answer.err)?;
    all.push(b'>')?;
    if answer.files.len() <= 20 {
        add_files(alloc, &mut all, answer.files.as_slice())?;
    } else {
        add_count(alloc, &mut all, answer.files.as_slice())?;
    }
    if answer.is_cut() {
        all.extend_from_slice(b" cut")?;
    }
    Ok(all)
}

/// What a launcher answers for a command in a directory: a line of the answer, or `refused`.
pub(crate) fn told<L: Launcher + Sync>(
    launcher: &L,
    alloc: Global,
    dir: &str,
    command: &str,
) -> Result<Vec<u8>, NoMemory> {
    match launch(launcher, alloc, dir, command) {
        Ok(answer) => line_of(alloc, &answer),
        Err(LaunchFault::Refused) => Ok(Vec::from_slice(alloc, b"refused")?),
        Err(LaunchFault::NoMemory) => Err(NoMemory),
    }
}

/// A launcher of process 1, whose notes go to the file `notes`.
pub(crate) fn launcher_of<R: Files<File = File> + Processes + Drop>(
    rt: R,
    alloc: Global,
    shell: Option<&str>,
) -> io::Result<ShellLauncher<R, File>> {
    let shell = match shell {
        Some(name) => Some(String::from_str(alloc, name)?),
        None => None,
    };
    let own = Launching {
        process: 1,
        mark: None,
    };
    let notes = Notes::new(File::create(&rt, "notes")?, "");
    Ok(ShellLauncher::new(rt, shell, own, notes))
}

/// Ends the use of a launcher, and returns its notes. Its root is the folder where the test runs,
/// where nothing is left.
pub(crate) fn end<F: Files + AllocGlobal, R: Processes + Drop>(
    rt: &F,
    launcher: ShellLauncher<R, File>,
) -> io::Result<String> {
    launcher.release();
    let notes = fs::read_to_string(rt, "notes")?;
    fs::remove_file(rt, "notes")?;
    match fs::remove_file(rt, ".wdl-lock") {
        Err(e) if e.kind() != io::ErrorKind::NotFound => Err(e),
        _ => Ok(notes),
    }
}
