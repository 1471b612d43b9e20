//! The scripts that no row has: lines of a file, as `tree kept 1 = int 1 10, array 1 9, let a 5 1`.

mod setting;

use crate::lists::setting::setting_of;
use rhai_build::functions::TreeParts;
use rhai_rows::sample::Script;
use rhai_rows::settings::Setting;
use rhai_samples::read::{Fault, read_tree};
use std::alloc::{AllocError, Global};
use std::io;
use std::io::Write;

/// The name of the file, in the folder where the program runs.
pub const FILE: &str = "lists.txt";

/// A script of a list, as its line tells it.
#[derive(Clone, Copy)]
pub struct Listed<'a> {
    pub list: &'a str,
    /// Its number in the list, counted from 1.
    pub number: usize,
    setting: Setting,
    /// The parts of its tree.
    tree: &'a str,
}

impl<'a> Listed<'a> {
    /// Reads what stands behind `tree` in a line.
    fn read(line: &'a str) -> Result<Listed<'a>, Fault> {
        let Some((name, tree)) = line.split_once(" = ") else {
            return Err(Fault::Wanted("a tree after ` = `"));
        };
        let (list, rest) = name.split_once(' ').unwrap_or((name, ""));
        let (number, setting) = rest.split_once(' ').unwrap_or((rest, ""));
        let number = number.parse().unwrap_or(0);
        match setting_of(setting) {
            Some(setting) if number > 0 => Ok(Listed {
                list,
                number,
                setting,
                tree,
            }),
            Some(_) => Err(Fault::Wanted("a number in the list")),
            None => Err(Fault::Wanted("a setting, or none,")),
        }
    }

    /// Makes the script, or says that memory ran out.
    pub fn script(self, alloc: Global) -> Result<Script, AllocError> {
        // The line was read before, so there is no other fault.
        let Ok(tree) = read_tree(alloc, self.tree) else {
            return Err(AllocError);
        };
        let TreeParts {
            statements,
            functions,
        } = tree;
        Ok(Script {
            statements,
            functions,
            settings: self.setting.settings(),
        })
    }

    /// Tells whether its requests for memory are refused: not where it is there for the checker alone.
    pub fn is_refused(self) -> bool {
        self.list != "checked" && self.list != "faulty" && self.list != "outside"
    }
}

/// Finds the script with a number in a list.
pub fn find<'a>(scripts: &[Listed<'a>], list: &str, number: usize) -> Option<Listed<'a>> {
    scripts
        .iter()
        .copied()
        .find(|script| script.list == list && script.number == number)
}

/// Reads the trees among the lines of a file. Tells each that cannot be read, or whose name is given before, and
/// answers None where there is one.
pub fn read<'a, W: Write>(
    alloc: Global,
    lines: &'a str,
    out: &mut W,
) -> io::Result<Option<Vec<Listed<'a>>>> {
    let mut scripts = Vec::new(alloc);
    let mut is_well = true;
    for (at, line) in lines.lines().enumerate() {
        let Some(line) = line.strip_prefix("tree ") else {
            continue;
        };
        match read_line(alloc, line, scripts.as_slice()) {
            Ok(script) => scripts.push(script)?,
            Err(Fault::NoMemory) => return Err(io::Error::from(AllocError)),
            Err(Fault::Wanted(wanted)) => {
                is_well = false;
                let number = at.saturating_add(1);
                writeln!(&mut *out, "{FILE}:{number}: {wanted} is wanted")?;
            }
        }
    }
    Ok(if is_well { Some(scripts) } else { None })
}

/// Reads a line behind those that were read before, with its tree.
fn read_line<'a>(alloc: Global, line: &'a str, before: &[Listed<'a>]) -> Result<Listed<'a>, Fault> {
    let script = Listed::read(line)?;
    if find(before, script.list, script.number).is_some() {
        return Err(Fault::Wanted("a name that is not given before"));
    }
    let tree = read_tree(alloc, script.tree)?;
    drop(tree);
    Ok(script)
}
