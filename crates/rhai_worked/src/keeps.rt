//! What the caches of function lookups keep: how many entries the newest has after a script's run, and how many caches
//! there are.

ghost use Rattle.std.specs.Prelude.{IfOk};
ghost use Rattle.rhai_lookups.specs.Levels.{CachesFit};
ghost use Rattle.rhai_lookups.specs.Runs.{lists_of};

use crate::lists::Listed;
use crate::scripts::{Source, script_named};
use rhai_eval_base::base::Scope;
use rhai_eval_base::check::{CheckedTree, check_tree};
use rhai_eval_base::state::{Caches, GlobalRuntimeState};
use rhai_rows::attempt::Attempt;
use rhai_rows::entry::Entry;
use rhai_rows::linked_pointer::scope_for;
use rhai_rows::maker::Maker;
use rhai_rows::modules::add_library;
use rhai_rows::runner::Runner;
use rhai_rows::sample::Script;
use rhai_rows::settings::{Settings, Way};
use rhai_rows::sheet::Sheet;
use rhai_tables::host::Pair;
use rhai_tables::tables::bench::BenchTable;
use std::alloc::{AllocError, Global};
use std::io;

/// What is told where the caches are off.
const NOTHING_KEPT: &str = "0 of 0";

/// How a script is run.
#[derive(Clone, Copy)]
enum Manner<'a> {
    /// With new caches.
    Alone,
    /// Behind another script, with the state and the caches that this left.
    Behind(Source<'a>),
    /// With caches that keep so many entries each at most.
    Within(usize),
    /// With two caches that the host has added.
    Stacked,
    /// Its last statement by a public call, with caches of which there are none yet.
    By(Entry),
}

/// A script, and how it is run.
#[derive(Clone, Copy)]
struct Asked<'a> {
    /// The row or the list, whose variables it runs above.
    list: &'a str,
    source: Source<'a>,
    manner: Manner<'a>,
}

/// Writes the answer of a call, as `1 of 2` for one entry in the newest of two caches:
///
/// - `keeps LIST N`: what is kept after a script has run
/// - `behind M keeps LIST N`: the same where another script of the list has run before, with the same state and caches
/// - `within COUNT keeps LIST N`: the same where no cache keeps more than so many entries
/// - `stacked keeps LIST N`: the same where the host has added two caches
/// - `by eval_expr keeps LIST N` and so on: what is kept after that public call, entered with the script's last
///   statement behind the others
///
/// It is the same whether variables are searched for or not, and nothing where the caches are off.
pub(crate) fn write_kept<R: Runner>(
    alloc: Global,
    lists: &[Listed<'_>],
    call: &str,
    out: &mut Vec<u8>,
) -> io::Result<()> {
    let mut sheet = Sheet::new(alloc);
    match read_call(lists, call) {
        Some(asked) => tell_ways::<R>(asked, &mut sheet),
        None => sheet.write("no script"),
    }
    sheet.hand_to(out)
}

/// Reads a call, None where there is no such script, or no such way to run it.
fn read_call<'a>(lists: &[Listed<'a>], call: &'a str) -> Option<Asked<'a>> {
    let (manner, name) = match call.strip_prefix("keeps ") {
        Some(name) => ("", name),
        None => call.split_once(" keeps ")?,
    };
    let (list, number) = name.split_once(' ')?;
    Some(Asked {
        list,
        source: script_named(lists, list, number)?,
        manner: manner_of(lists, list, manner)?,
    })
}

/// Reads how a script of a list is run, as `behind 1`, and as usual where it is empty.
fn manner_of<'a>(lists: &[Listed<'a>], list: &str, text: &str) -> Option<Manner<'a>> {
    if text.is_empty() {
        return Some(Manner::Alone);
    }
    if text == "stacked" {
        return Some(Manner::Stacked);
    }
    let (word, what) = text.split_once(' ')?;
    match word {
        "behind" => script_named(lists, list, what).map(|first| Manner::Behind(first)),
        "within" => what.parse().ok().map(|most| Manner::Within(most)),
        "by" => Entry::named(what).map(|entry| Manner::By(entry)),
        _ => None,
    }
}

/// Tells what is kept in every way of running. Where two of them differ both are told.
fn tell_ways<R: Runner>(asked: Asked<'_>, sheet: &mut Sheet) {
    tell_way::<R>(asked, Way::USUAL, sheet);
    for way in Way::ALL {
        let mut other = Sheet::new(sheet.maker.allocator());
        tell_way::<R>(asked, way, &mut other);
        if way.keeps_functions {
            sheet.add_other(other);
        } else {
            tell_off(other, sheet);
        }
    }
}

/// Tells what is kept though the caches are off, if anything is.
fn tell_off(other: Sheet, sheet: &mut Sheet) {
    match other.finish() {
        Ok(text) => {
            if text.as_str() != NOTHING_KEPT {
                sheet.write(" or off ");
                sheet.write(text.as_str());
            }
            drop(text);
        }
        Err(AllocError) => sheet.maker.lack_memory(),
    }
}

fn tell_way<R: Runner>(asked: Asked<'_>, way: Way, sheet: &mut Sheet) {
    let script = asked.source.script(sheet.maker.allocator());
    let scope = scope_for(sheet.maker.allocator(), asked.list);
    let script = sheet.maker.kept(script);
    let scope = sheet.maker.kept(scope);
    if let (Some(script), Some(scope)) = (script, scope) {
        let caches = caches_of(&mut sheet.maker, asked.manner, way);
        match asked.manner {
            Manner::By(entry) => {
                drop(caches);
                tell_entered::<R>(entry, script, way, scope, sheet);
            }
            Manner::Behind(first) => tell_run::<R>(Some(first), caches, script, way, scope, sheet),
            _ => tell_run::<R>(None, caches, script, way, scope, sheet),
        }
    }
}

/// Tells what is kept after a public call, entered with the last statement of a script.
fn tell_entered<R: Runner>(
    entry: Entry,
    script: Script,
    way: Way,
    scope: Scope<Pair>,
    sheet: &mut Sheet,
) {
    let alloc = sheet.maker.allocator();
    let mut attempt = Attempt::GRANTED;
    let outcome = R::enter(alloc, entry, script, way, scope, &mut attempt);
    if let Some(outcome) = sheet.maker.kept(outcome) {
        sheet.kept(outcome.entries, outcome.depth);
        drop(outcome);
    }
}

/// Tells what is kept after a script has run, behind another if there is one.
fn tell_run<R: Runner>(
    first: Option<Source<'_>>,
    caches: Caches<Pair>,
    script: Script,
    way: Way,
    scope: Scope<Pair>,
    sheet: &mut Sheet,
)
    requires { (lists : _) → CachesFit lists caches }
{
    let run = Run::new(
        sheet.maker.allocator(),
        &script.settings,
        caches,
        way,
        scope,
    );
    match run {
        Ok(mut run) => {
            if let Some(first) = first {
                run.run_source::<R>(first, &mut sheet.maker);
            }
            run.run_script::<R>(script, &mut sheet.maker);
            sheet.kept(run.caches.entries(), run.caches.len());
            drop(run);
        }
        Err(AllocError) => {
            drop(script);
            sheet.maker.lack_memory();
        }
    }
}

/// What a host keeps between runs.
struct Run {
    global: GlobalRuntimeState<Pair>,
    caches: Caches<Pair>,
    table: BenchTable,
    scope: Scope<Pair>,
}

// Written by hand, so that what lets go of it calls this, and need not go through its parts.
impl Drop for Run {
    fn drop(self) {
        let Run {
            global: _,
            caches: _,
            table: _,
            scope: _,
        } = self;
    }
}

/// Makes the caches of a way, as a script is to be run.
fn caches_of(maker: &mut Maker, manner: Manner<'_>, way: Way) -> Caches<Pair>
    ensures { (lists : _) → CachesFit lists result }
{
    match manner {
        Manner::Within(most) if way.keeps_functions => {
            Caches::with_most_entries(maker.allocator(), most)
        }
        Manner::Stacked => stacked(maker, way),
        _ => way.caches(maker.allocator()),
    }
}

/// Makes the caches of a way, and adds two. What is cleared fits all libraries and imports.
fn stacked(maker: &mut Maker, way: Way) -> Caches<Pair>
    ensures { (lists : _) → CachesFit lists result }
{
    let mut caches = way.caches(maker.allocator());
    let pushed = caches.push();
    maker.remember(pushed);
    match caches.push() {
        Ok(()) => caches,
        Err(AllocError) => {
            maker.lack_memory();
            caches.clear();
            caches
        }
    }
}

impl Run {
    /// Makes what a host has before a run.
    fn new(
        alloc: Global,
        settings: &Settings,
        caches: Caches<Pair>,
        way: Way,
        scope: Scope<Pair>,
    ) -> Result<Run, AllocError>
        requires { (lists : _) → CachesFit lists caches }
        ensures { IfOk result (λ run. CachesFit (lists_of run.global) run.caches) }
    {
        let mut global = GlobalRuntimeState::new(alloc)?;
        global.always_search_scope = way.always_search_scope;
        settings.start.set(&mut global)?;
        Ok(Run {
            global,
            caches,
            table: BenchTable::new(alloc, settings.has_odd_natives),
            scope,
        })
    }

    /// Makes a script, and runs it.
    fn run_source<R: Runner>(&mut self, source: Source<'_>, maker: &mut Maker)
        requires { CachesFit (lists_of self.old.global) self.old.caches }
        ensures { CachesFit (lists_of self.new.global) self.new.caches }
    {
        let script = source.script(maker.allocator());
        if let Some(script) = maker.kept(script) {
            self.run_script::<R>(script, maker);
        }
    }

    /// Checks a script, and runs it if it is well formed.
    fn run_script<R: Runner>(&mut self, script: Script, maker: &mut Maker)
        requires { CachesFit (lists_of self.old.global) self.old.caches }
        ensures { CachesFit (lists_of self.new.global) self.new.caches }
    {
        let Script {
            statements,
            functions,
            settings,
        } = script;
        if let Ok(tree) = check_tree(maker.allocator(), statements, functions) {
            self.add_functions(&tree, maker);
            let answer = R::eval_tree(
                maker.allocator(),
                &settings,
                &mut self.global,
                &mut self.caches,
                &mut self.table,
                &mut self.scope,
                &tree,
            );
            drop(maker.kept(answer));
            drop(tree);
        }
    }

    /// Adds the functions of a tree as a library. Where there are some the caches are let go of.
    fn add_functions(&mut self, tree: &CheckedTree, maker: &mut Maker)
        requires { CachesFit (lists_of self.old.global) self.old.caches }
        ensures { CachesFit (lists_of self.new.global) self.new.caches }
    {
        if tree.functions().is_empty() {
            return;
        }
        let added = add_library(maker.allocator(), &mut self.global, tree);
        maker.remember(added);
        self.caches.clear();
    }
}
