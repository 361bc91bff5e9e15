//! What a launch answers, by the shell that the launcher was given.
use crate::answers::{end, launcher_of, told};
use std::alloc::Global;
use std::fs;
use std::fs::Files;
use std::test::Fail;
use wdl_port::{LaunchFault, Launcher};

// Each command with what it leaves. All are run one after another in one directory, which is made
// anew for each.
const COMMANDS: &str = "\
$ cat .laid; echo oops >&2; exit 3
3 <x|> <oops|> .laid=x|
$ kill -9 $$
255 <> <> .laid=x|
$ exit 127
127 <> <> .laid=x|
$ echo $WDL_PLACE $WDL_ATTEMPT $WDL_ROOT
0 <0/0 0 .|> <> .laid=x|
$ +echo $WDL_RUNTIME_cpu; echo \"$WDL_RUNTIME_docker\"; echo $WDL_INPUTS; tr '\\0' '|' <_inputs
0 <1.5|a:1|b:2|told/job/_inputs|/data/a  b|c|d|> <> .laid=x|
$ echo ${WDL_RUNTIME_cpu-none} ${WDL_INPUTS-none}; ls -A
0 <none none|.laid|.wdl-job|_stderr|_stdout|> <> .laid=x|
$ %echo out; echo err >&2; printf 1 > a; : > b; exit 4
4 <!> <err|> .laid=! a=! b=!
$ mkdir -p d/e; printf 1 > d/e/f; printf 2 > d-e; printf 3 > d.e
0 <> <> .laid=x| d-e=2 d.e=3 d/e/f=1
$ printf 1 > a; ln -s a b; mkdir d; ln -s ../a d/c
0 <> <> .laid=x| a=1 b=1 d/c=1
$ mkdir d; printf 1 > d/a; ln -s d e; ln -s gone f; ln -s g g; ln -s .laid/h h; ln -s /dev/null i; mkfifo j
0 <> <> .laid=x| d/a=1
$ printf 1 > a; ln -s /proc/self/mem b
0 <> <> .laid=x| a=1 b=!
$ d=.; for i in $(seq 64); do printf $i > $d/f; [ $i = 64 ] || mkdir $d/d; d=$d/d; done
0 <> <> 65 files f=1
$ d=.; for i in $(seq 64); do printf $i > $d/f; mkdir $d/d; d=$d/d; done
0 <> <> 66 files f=1 cut
$ for i in a b c d e; do head -c 600000 /dev/zero > $i; done; printf 1234567890 > z
0 <> <> .laid=x| a=#600000 b=#600000 c=#600000 d=! e=! z=1234567890
$ head -c 1048576 /dev/zero > a; head -c 1048577 /dev/zero > b; head -c 65536 /dev/zero; head -c 4096 /dev/zero >&2
0 <#65536> <#4096> .laid=x| a=#1048576 b=!
$ head -c 65537 /dev/zero; head -c 4097 /dev/zero >&2
0 <!> <!> .laid=x|
$ printf 1 > \"$(printf 'a\\377')\"; printf 2 > b; printf 3 > ,c; exit 5
5 <> <> ,c=3 .=! .laid=x| b=2 cut
$ d=$(printf %0255d 0); mkdir -p $d/$d/$d/$d; printf 1 > $d/$d/$d/$d/0; exit 6
6 <> <> .=! .laid=x| cut
$ d=$(printf %0255d 0); (for i in $(seq 17); do mkdir $d; cd $d; done) 2>/dev/null; exit 7
7 <> <> .=! .laid=x| cut
$ for i in $(seq 5000); do : > $i; done; exit 8
8 <> <> 5001 files 999=
$ rm _stdout _stderr .laid; mkfifo _stderr
0 <!> <!>
$ rm -r ../job
0 <!> <!>
$ chmod 500 .
0 <> <> .laid=x|
$ rm -rf _stdout _stderr .laid .wdl-job; echo x > left
0 <!> <!> left=x|
$ true
refused";

// The same, for the limits of an answer.
const MANY: &str = "\
$ n=$(printf %0245d 0); for i in $(seq 10000 14999); do : > $n$i; done
0 <> <> 4196 files 0000000000000000000000000000000000000000000000000000000000000000000000000000000000000000000000000000000000000000000000000000000000000000000000000000000000000000000000000000000000000000000000000000000000000000000000000000000000000000000000000000014193= cut
$ %mkdir d; for i in $(seq 820); do : > d/$i; done; for i in $(seq 79); do cp -rl d d$i; done; exit 9
9 <!> <> 65536 files d9/778=! cut";

// What the notes say of the answers that are cut, in this order.
const NOTES: &str = "\
0/0: the command left 65 files, of which 65 are known by name: a folder is below 64 levels, in \"./d/d/
0/0: the command left 4 files, of which 3 are known by name: a name is not UTF-8, in \"./\"; an output
0/0: the command left 2 files, of which 1 are known by name: a name has more than 1,024 bytes, in \"./00
0/0: the command left 1 files, of which 1 are known by name: something cannot be read (invalid filename), in
0/0: not launched in told/job: the directory is there and no job left it";

const NOTES_ON_MANY: &str = "\
0/0: the command left 5001 files, of which 4195 are known by name: the names of an answer have at most 1,048,576 bytes; an
0/0: the command left 65601 files, of which 65535 are known by name: an answer has at most 65,536 files; an";

// Whether each line begins as the table says.
fn are_noted(notes: &str, wanted: &str) -> bool {
    let mut lines = notes.lines();
    for beginning in wanted.lines() {
        if !lines.next().is_some_and(|line| line.starts_with(beginning)) {
            return false;
        }
    }
    lines.next().is_none()
}

fn is_as_wanted(got: &[u8], want: &str) -> bool {
    got == want.as_bytes()
}

// Runs each command, and gives the first whose line is another one than the table's, with its line.
fn first_wrong<L: Launcher + Sync>(
    launcher: &L,
    alloc: Global,
    dir: &str,
    commands: &str,
) -> Result<Option<Vec<u8>>, LaunchFault> {
    for case in commands.split("$ ").skip(1) {
        if let Some((command, want)) = case.split_once('\n') {
            let got = told(launcher, alloc, dir, command)?;
            if !is_as_wanted(got.as_slice(), want.trim_end()) {
                return Ok(Some(got));
            }
        }
    }
    Ok(None)
}

#[test]
fn tells_what_a_command_did(rt: HostRuntime) -> Result<(), Fail> {
    let alloc = rt.alloc();
    let launcher = launcher_of(&rt, alloc, Some("sh"))?;
    let wrong = first_wrong(&launcher, alloc, "told/job", COMMANDS)?;
    let notes = end(&rt, launcher)?;
    rt.remove_dir_all(alloc, "told")?;
    if let Some(line) = wrong {
        assert_eq!(rt; String::from_utf8(line)?.as_str(), "");
    }
    assert!(rt; are_noted(notes.as_str(), NOTES), "{notes}");
    Ok(())
}

#[test]
fn keeps_the_first_of_many_names(rt: HostRuntime) -> Result<(), Fail> {
    let alloc = rt.alloc();
    let launcher = launcher_of(&rt, alloc, Some("sh"))?;
    let wrong = first_wrong(&launcher, alloc, "many/job", MANY)?;
    let notes = end(&rt, launcher)?;
    rt.remove_dir_all(alloc, "many")?;
    if let Some(line) = wrong {
        assert_eq!(rt; String::from_utf8(line)?.as_str(), "");
    }
    assert!(rt; are_noted(notes.as_str(), NOTES_ON_MANY), "{notes}");
    Ok(())
}

// `echo` says how it was started.
#[test]
fn runs_a_command_by_the_given_shell(rt: HostRuntime) -> Result<(), Fail> {
    let alloc = rt.alloc();
    for name in ["echo", "/bin/echo"] {
        let launcher = launcher_of(&rt, alloc, Some(name))?;
        let line = told(&launcher, alloc, "shell/job", "a  'b'")?;
        assert!(rt;
            is_as_wanted(line.as_slice(), "0 <-c a  'b'|> <> .laid=x|"),
            "{name}"
        );
        end(&rt, launcher)?;
    }
    rt.remove_dir_all(alloc, "shell")?;
    Ok(())
}

// One that is not there, one that is no program, and none: no status of a command.
#[test]
fn refuses_a_shell_that_cannot_be_started(rt: HostRuntime) -> Result<(), Fail> {
    let alloc = rt.alloc();
    fs::write(&rt, "no program", "true")?;
    for name in ["./no shell", "./no program"] {
        let launcher = launcher_of(&rt, alloc, Some(name))?;
        let line = told(&launcher, alloc, "none/job", "true")?;
        assert!(rt; is_as_wanted(line.as_slice(), "refused"), "{name}");
        end(&rt, launcher)?;
    }
    let launcher = launcher_of(&rt, alloc, None)?;
    let line = told(&launcher, alloc, "none/job", "true")?;
    assert!(rt; is_as_wanted(line.as_slice(), "refused"));
    end(&rt, launcher)?;
    fs::remove_file(&rt, "no program")?;
    rt.remove_dir_all(alloc, "none")?;
    Ok(())
}

// What the system starts no program with is no status of a command.
#[test]
fn refuses_a_command_that_is_too_long(rt: HostRuntime) -> Result<(), Fail> {
    let alloc = rt.alloc();
    let launcher = launcher_of(&rt, alloc, Some("sh"))?;
    let command = " ".repeat(alloc, 140_000)?;
    let line = told(&launcher, alloc, "long/job", command.as_str())?;
    assert!(rt; is_as_wanted(line.as_slice(), "refused"));
    let notes = end(&rt, launcher)?;
    assert!(rt;
        notes.as_str().contains("are together longer than"),
        "{notes}"
    );
    rt.remove_dir_all(alloc, "long")?;
    Ok(())
}
