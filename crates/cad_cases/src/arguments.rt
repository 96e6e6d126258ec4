//! The program's arguments, and a job in a file.
use crate::cases::{AMPLE_DEPTH, lines};
use cad_files::MemSink;
use cad_history::Depth;
use cad_job::{JobFault, args_status, read_args, run_path};
use std::alloc::Global;
use std::fs;
use std::test::Fail;

#[test]
fn depth_and_file(rt: HostRuntime) -> Result<(), Fail> {
    for (words, depth, stop, file) in [
        (
            ["cadedit", "--depth", "5", "F"].as_slice(),
            5,
            false,
            Some("F"),
        ),
        (["cadedit"].as_slice(), 100, false, None),
        (["cadedit", "--stop", "F"].as_slice(), 100, true, Some("F")),
        (["cadedit", "--depth", "1000"].as_slice(), 1000, false, None),
    ] {
        let Ok(args) = read_args(rt.alloc(), "9.8.7", words) else {
            panic!(rt; "arguments were not read")
        };
        assert_eq!(rt; args.depth.get(), depth);
        assert_eq!(rt; args.stop, stop);
        assert!(rt; args.file == file);
    }
    Ok(())
}

#[test]
fn arguments_that_are_none(rt: HostRuntime) -> Result<(), Fail> {
    for (words, status) in [
        (["cadedit", "--depth", "0"].as_slice(), 64u8),
        (["cadedit", "--depth", "1001"].as_slice(), 64),
        (["cadedit", "--depth", "x"].as_slice(), 64),
        (["cadedit", "F", "G"].as_slice(), 64),
        (["cadedit", "--stop", "--stop"].as_slice(), 64),
        (["cadedit", "--help"].as_slice(), 0),
        (["cadedit", "--version"].as_slice(), 0),
    ] {
        match read_args(rt.alloc(), "9.8.7", words) {
            Ok(_) => panic!(rt; "arguments were read"),
            Err(error) => assert_eq!(rt; args_status(&error), status),
        }
    }
    Ok(())
}

/// What is told of these words, which are no arguments of a job.
fn told<'a>(alloc: Global, words: &'a [&'a str]) -> Result<String, Fail> {
    match read_args(alloc, "9.8.7", words) {
        Ok(_) => Err(Fail::from("arguments were read")),
        Err(error) => Ok(format!(in alloc; "{error}")?),
    }
}

#[test]
fn texts_of_arguments_that_are_none(rt: HostRuntime) -> Result<(), Fail> {
    for (words, text) in [
        (
            ["cadedit", "--depth", "0"].as_slice(),
            "error: invalid value '0' for '--depth <N>': 0 is not in 1..=1000\n\n\
            For more information, try '--help'.\n",
        ),
        (
            ["cadedit", "--depth", "x"].as_slice(),
            "error: invalid value 'x' for '--depth <N>': invalid digit found in string\n\n\
            For more information, try '--help'.\n",
        ),
        (
            ["cadedit", "F", "G"].as_slice(),
            "error: unexpected argument 'G' found\n\n\
            Usage: cadedit [OPTIONS] [FILE]\n\n\
            For more information, try '--help'.\n",
        ),
    ] {
        let told = told(rt.alloc(), words)?;
        assert!(rt; told.as_str() == text, "{told}");
    }
    Ok(())
}

#[test]
fn help(rt: HostRuntime) -> Result<(), Fail> {
    let told = told(rt.alloc(), &["cadedit", "--help"])?;
    for part in [
        "Edits a cadastral map.",
        "\n\nUsage: cadedit [OPTIONS] [FILE]\n\nArguments:\n  [FILE]  The job; standard input where",
        "\n\nOptions:\n      --depth <N>  How many edits can be undone, from 1 to 1000 [default: 100]\n      \
        --stop       End after the first record whose answer is",
        "  -h, --help       Print help",
        "  -V, --version    Print version\n",
        "Status: 0 the job is done, 1 `--stop` ended it, 2 the plan is at fault, 3",
    ] {
        assert!(rt; told.as_str().contains(part), "{part}");
    }
    Ok(())
}

#[test]
fn version(rt: HostRuntime) -> Result<(), Fail> {
    match read_args(rt.alloc(), "9.8.7", &["cadedit", "--version"]) {
        Ok(_) => panic!(rt; "arguments were read"),
        Err(error) => {
            let told = format!(in rt.alloc(); "{error}")?;
            assert!(rt; told.as_str() == "cadedit 9.8.7\n");
        }
    }
    Ok(())
}

#[test]
fn a_job_in_a_file(rt: HostRuntime) -> Result<(), Fail> {
    let job = lines(
        rt.alloc(),
        &[
            "plan,1; open; add-source,1,Plan 7; add-point,1,0,0; attach,point,1,1; undo; redo",
            "undo; undo; undo; undo; print",
        ],
    )?;
    let answers = lines(
        rt.alloc(),
        &["ok; ok; ok; ok; ok; ok; ok; ok; nothing; plan,2; open"],
    )?;
    let depth = Depth::new(AMPLE_DEPTH).expect(&rt, "a depth");
    fs::write(&rt, "job_in_a_file.csv", job.as_slice())?;
    let mut sink = MemSink::new(rt.alloc(), u64::MAX);
    let end = run_path(&rt, "job_in_a_file.csv", &mut sink, depth, false);
    fs::remove_file(&rt, "job_in_a_file.csv")?;
    assert_eq!(rt; end, Ok(None));
    assert!(rt; sink.bytes() == answers.as_slice());
    let mut none = MemSink::new(rt.alloc(), u64::MAX);
    assert_eq!(rt;
        run_path(&rt, "not_there.csv", &mut none, depth, false),
        Err(JobFault::Read)
    );
    assert!(rt; none.bytes().is_empty());
    Ok(())
}
