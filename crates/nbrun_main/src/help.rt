//! What `--help`, `-h`, `--version` and a command without words print.
ghost use Rattle.std.specs.Prelude.{◌≡◌, map, option_map, string_bytes};
ghost use Rattle.nbrun_main.specs.Printed as spec;

/// The program's name and version.
pub(crate) const VERSION: &str = "nbrun 0.1.0\n";

/// The words that the program takes.
pub(crate) const HELP: &str = "\
nbrun executes Jupyter notebooks with nobody at the screen.

  nbrun IN OUT [options]          reads the notebook IN and writes OUT
  nbrun --jobs FILE [options]     runs the jobs of a file, at most 16
  nbrun graph FILE [options]      runs jobs that need each other, in waves
  nbrun --exercise N              runs N generated cells, at most 200, in memory
  nbrun report FORM IN OUT        makes a script or a page of the notebook IN,
                                  or a notebook of a script: FORM is script,
                                  page or notebook
  nbrun --help | -h | --version   prints this, or the version

  -p, --parameters NAME VALUE     a parameter: a number of JSON, True, False,
                                  None, or else a text
  -r, --parameters_raw NAME VALUE a parameter whose value is the text itself
  -k, --kernel NAME               the kernel; default: the notebook's own
  --kernel-path DIR               where kernels are described;
                                  default: /usr/local/share/jupyter/kernels
  --cwd DIR                       the kernel's folder; default: .
  --start-timeout S               seconds for the kernel's start; default: 60
  --execution-timeout S           seconds for each cell; default: no limit
  --prepare-only                  injects the parameters and executes nothing
  --report-mode                   hides the sources of all code cells
  --merge-streams                 joins neighbouring outputs of one stream
  --allow-errors                  goes on after a cell that raises an error
  --allow-error-name NAME         goes on after an error of this name
  --interrupt                     interrupts a cell at its limit; needs a kernel
                                  spec with \"interrupt_mode\": \"message\"
  --no-heartbeat                  doesn't ping the kernel

After -- each word is a path. A notebook with the name report is ./report, one
with the name graph ./graph. Switches are off by default. A job of a file has
its own paths, parameters, kernel and cwd: -p, -r, -k, --cwd and --prepare-only
don't go with --jobs or graph. --exercise goes with no other word.

Examples:
  nbrun report.ipynb out.ipynb -p year 2026 -r day 007
  nbrun report.ipynb out.ipynb -k python3 --execution-timeout 600
  nbrun --jobs jobs.json --kernel-path /usr/share/jupyter/kernels
  nbrun graph night.json --kernel-path /usr/share/jupyter/kernels
  nbrun --exercise 8
  nbrun report page out.ipynb out.html

A jobs file:
  {\"jobs\": [{\"input\": \"a.ipynb\", \"output\": \"x.ipynb\", \"parameters\": {\"n\": 1}}]}

A job of a graph has also a \"name\", and may have
  \"needs\": [\"extract\"], \"take\": {\"rows\": {\"job\": \"extract\", \"scrap\": \"rows\"}}
where the notebook of extract prints the row: scrap rows = 7

Status: 0 done, 1 a cell raised an error, 2 wrong words or jobs file, 3 a file
not read, 4 no notebook, 5 kernel spec refused or no translator for parameters,
6 kernel not started, 7 not ready in time, 8 kernel lost, 9 a cell timed out,
10 not saved, 11 done but not said, 12 no memory, 13 a cell's end not seen,
14 network fault, 15 the kernel's bytes are broken, 16 too many waits,
17 not run since a job that it needs failed, 18 a scrap is missing,
20 arguments or folder not read.
";

/// What is printed in place of a run: where `--help`, `-h` or `--version` is the only word, and
/// where there is none.
pub(crate) fn text_to_print(words: &[String]) -> Option<&'static str>
    ensures { option_map (λ text. text.now) result ≡
        spec.text_to_print (map string_bytes words.now) }
{
    match words {
        [] => Some(HELP),
        [word] => text_for(word.as_str()),
        _ => None,
    }
}

// What is printed for this word alone.
fn text_for(word: &str) -> Option<&'static str>
    ensures { option_map (λ text. text.now) result ≡ spec.text_for word.now }
{
    match word {
        "--help" | "-h" => Some(HELP),
        "--version" => Some(VERSION),
        _ => None,
    }
}
