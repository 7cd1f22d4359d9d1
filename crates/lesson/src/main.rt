// lesson FILE..: runs each lesson from reset and prints a row for each record; lesson listing FILE.. prints its comments too; lesson try takes lines as they are typed.
// lesson assemble | list | explain [FILE]: filters, on a file or on standard input; lesson pieces FILE.. shows what they make of a lesson.
// lesson card [PORT]: what each bit of a port means.
#![tactic(auto)]

mod run;

use reader::course::{Course, Meant};
use reader::output::Stop;
use reader::source::Source;
use reader::usage::Mode;
use reader::{comments, filters, usage};
use report::Exit;

// The arguments are walked twice: what is used wrongly is found before anything is run.
fn main(rt: HostRuntime) {
    let n = report::arg_count(&rt);
    let checked = walk(&rt, n, |meant, word| usage::check(&rt, meant, word));
    let exit = match checked {
        Ok(_) => walk(&rt, n, |meant, word| take(&rt, meant, word)).unwrap_or_else(|exit| exit),
        Err(exit) => {
            sentences::print_usage();
            exit
        }
    };
    report::end(exit);
}

// Does something with each argument, of which there are n with the program's name, and at their end. Answers how the program would end then, or ends at once.
fn walk<F: Fn(Meant, &[u8]) -> Result<(), Stop>>(
    rt: &HostRuntime,
    n: usize,
    act: F,
) -> Result<Exit, Exit>
    requires { F.IsAlwaysCallable act }
{
    let mut course = Course::start();
    let mut exit = Exit::Well;
    for i in 1..n {
        let mut word = io::buffer();
        match report::arg(rt, i, &mut word) {
            Ok(length) => {
                let given = &word[..length];
                exit = exit_after(exit, act(course.take_word(given), given))?;
            }
            Err(error) => {
                report::fail_with(b"lesson: an argument", &error);
                return Err(Exit::Usage);
            }
        }
    }
    exit = exit_after(exit, act(course.end(), b""))?;
    if n < 2 {
        return Err(Exit::Usage);
    }
    Ok(exit)
}

fn exit_after(exit: Exit, done: Result<(), Stop>) -> Result<Exit, Exit> {
    match done {
        Ok(()) => Ok(exit),
        Err(Stop::Text) => Ok(report::worse(exit, Exit::Failed)),
        Err(Stop::Program(exit)) => Err(exit),
    }
}

fn take(rt: &HostRuntime, meant: Meant, word: &[u8]) -> Result<(), Stop> {
    match meant {
        Meant::File {
            mode: Mode::Card,
            ..
        } => comments::print_card(word),
        Meant::NoFile(Mode::Card) => comments::print_card(b""),
        Meant::File { mode, .. } => match Source::open(rt, word) {
            Ok(source) => take_text(rt, mode, &source, word),
            Err(error) => {
                report::fail_of(word, &error);
                Err(Stop::Text)
            }
        },
        Meant::NoFile(mode) => {
            if mode.takes_one() {
                let source = Source::input(rt);
                take_text(rt, mode, &source, b"lesson: standard input")
            } else {
                Ok(())
            }
        }
        Meant::Nothing => Ok(()),
    }
}

// A text that is open.
fn take_text(rt: &HostRuntime, mode: Mode, source: &Source, path: &[u8]) -> Result<(), Stop> {
    match mode {
        Mode::Assemble => filters::assemble(rt, source, path),
        Mode::List => filters::list(source, path),
        Mode::Explain => filters::explain(source, path),
        _ => run::run(mode, source, path),
    }
}
