//! What is known of the names of a program.

ghost use Rattle.std.specs.Prelude.{◌≡◌, ◌+◌, ◌^◌, ◌<◌, ℕ, Bool, List, ◌||◌, not, length, map, replicate, false, slice_index, IfOk, OnOk};
ghost use Rattle.mini_laws.specs.declared.names.Use.TheVariants as variant;
ghost use Rattle.mini_laws.specs.References.{references, reads as is_read, writes as is_write};
ghost use Rattle.mini_laws.specs.Shared.{script_tops as script_tops_of};
ghost use Rattle.mini_context.specs.Mentioned.{is_outside as is_outside_of, mentioned_at as entry_at};
ghost use Rattle.mini_context.specs.Own.{is_script_shape};
ghost use Rattle.mini_context.specs.Facts.{Refreshed, Tells, Told, facts_of, foreign, foreign_always, is_assigned as assigned, is_changed as changes, is_changed_outside, may_be_unset, shared_always, shares};
ghost use Rattle.mini_context.specs.Found.{Found, FoundScopes};
ghost use Rattle.mini_laws.specs.Foreign.{is_read_early, moments as moments_of};
ghost use Rattle.mini_laws.specs.Mentions.{outermost};
ghost use Rattle.mini_context.specs.Lists.{holds};
ghost use Rattle.mini_context.specs.Steady.{has_this as this_held, is_initial as initial, is_past as past, is_steady as steady, is_unshared as unshared};
ghost use Rattle.mini_context.specs.Tables.{mark_at, named, Marked};
ghost use Rattle.mini_laws.specs.Counts.{Contained, FellBy};

use crate::asking::list_asking;
use crate::count::{Counts, count_out, no_counts, own_counts};
use crate::early::{Moments, empty_moments, open_moments, pass_node};
use crate::listing::{ScopeTables, empty_scopes, has_eval, list_scopes, open_scopes};
use crate::lists::holds_number;
use crate::marks::{is_marked, mark_bindings, no_marks};
use crate::mentions::{is_outside, is_somewhere, mentioned_at};
use crate::params::is_around;
use crate::standing::{at_top, first_reading};
use crate::steps::Steps;
use crate::survey::{Tables, empty_tables, open_tables, survey_node};
use crate::writable::mark_writable;
use mini_laws::Use;
use mini_model::{OutOfMemory, Shape, SymbolId};
use mini_node::Node;
use mini_scope::{Environment, OpenScopes};
use std::alloc::Global;
use std::marker::{Brand, Model};
use std::sync::ledger::{Blank, Ledger};

/// The number of a scope: the scopes of a program are numbered in the order in which they are
/// entered.
#[derive(Clone, Copy)]
pub struct ScopeId(pub u32);

/// What a look at a program finds of its names.
#[derive(Drop)]
pub struct Look {
    /// How often each symbol is read and written.
    pub counts: Counts,
    /// What a walk finds of symbols and of bodies.
    pub tables: Tables,
    /// The scopes, and the symbols that a direct eval can see.
    pub scopes: ScopeTables,
    /// The symbols that the patterns of `var`s write.
    pub pattern_writes: Vec<bool>,
    /// Which bodies read each symbol before its declaration has ended.
    pub moments: Moments,
    /// By symbol, whether it is one of a script's top names.
    pub tops: Vec<bool>,
    /// By symbol, whether it is mentioned and can be written.
    pub writable: Vec<bool>,
    /// By number, whether the body asks the world for `this`.
    pub asking: Vec<bool>,
}

/// What is known of the names of a program. A contract sees it as lists, by symbol, by scope and by
/// body. Scopes have the numbers of the program that was looked at last.
#[derive(Drop)]
pub struct Scopes {
    look: Look,
    first_tops: Vec<bool>,
}

impl Model for Scopes {
    ghost use Rattle.mini_context.specs.Facts.{Facts, facts_of};

    ghost Value = { Facts };

    ghost view = { λ b. facts_of b.look b.first_tops.items };
}

fn count_at(counts: &[u32], at: u32) -> u32
    ensures { result ≡ slice_index counts.now at }
{
    match counts.get(at as usize) {
        Some(count) => *count,
        None => 0,
    }
}

fn is_script(shape: &Shape) -> bool
    ensures { result ≡ is_script_shape shape.now }
{
    matches!(shape, Shape::Program(false, _))
}

// Sets which of so many symbols are a script's top names.
fn mark_tops(
    alloc: Global,
    tops: &mut Vec<bool>,
    program: &Node,
    symbols: u32,
) -> Result<(), OutOfMemory>
    ensures { OnOk result (Marked (script_tops_of program.now) (replicate symbols false) tops.new.items) }
{
    *tops = no_marks(alloc, symbols)?;
    if !is_script(program.shape()) {
        return Ok(());
    }
    let scopes = OpenScopes::of(alloc, Use::Read, program)?;
    mark_bindings(tops, scopes.first.as_slice());
    Ok(())
}

// Sets what a walk over a program with so many symbols finds.
fn survey_program(
    alloc: Global,
    tables: &mut Tables,
    program: &Node,
    symbols: u32,
) -> Result<(), OutOfMemory>
    ensures { OnOk result (Found tables.new symbols program.now) }
{
    open_tables(alloc, symbols, tables)?;
    survey_node(alloc, tables, at_top(), program)
}

// Sets the scopes of a program with so many symbols, and which of these the patterns of its `var`s
// write.
fn list_program(
    alloc: Global,
    scopes: &mut ScopeTables,
    pattern_writes: &mut Vec<bool>,
    program: &Node,
    symbols: u32,
) -> Result<(), OutOfMemory>
    ensures { OnOk result (FoundScopes scopes.new pattern_writes.new.items symbols program.now) }
{
    open_scopes(alloc, symbols, scopes)?;
    *pattern_writes = no_marks(alloc, symbols)?;
    let mut environment = Environment::new(alloc);
    list_scopes(
        alloc,
        scopes,
        pattern_writes,
        &mut environment,
        has_eval(program),
        first_reading(),
        program,
    )
}

// Sets which bodies read each of so many symbols before its declaration has ended.
fn pass_program(
    alloc: Global,
    moments: &mut Moments,
    program: &Node,
    symbols: u32,
) -> Result<(), OutOfMemory>
    ensures { OnOk result ((s : ℕ) → s < symbols → (b : ℕ) → holds moments.new.early.items s b ≡ is_read_early b (named s) (moments_of variant.Read outermost program.now)) }
{
    open_moments(alloc, symbols, moments)?;
    pass_node(moments, first_reading(), program)
}

// No look yet.
fn no_look(alloc: Global) -> Look {
    Look {
        counts: no_counts(alloc),
        tables: empty_tables(alloc),
        scopes: empty_scopes(alloc),
        pattern_writes: Vec::new(alloc),
        moments: empty_moments(alloc),
        tops: Vec::new(alloc),
        writable: Vec::new(alloc),
        asking: Vec::new(alloc),
    }
}

// Sets what is known of the names of a program with so many symbols. Memory counts as run out where
// it mentions a symbol past these, which no program that was resolved does, and nothing that is
// made of one.
fn look_at(look: &mut Look, alloc: Global, program: &Node, symbols: u32) -> Result<(), OutOfMemory>
    requires { length (references variant.Read program.now) + 1 < 2 ^ 32 }
    ensures { (tops : List Bool) → OnOk result (Told (facts_of look.new tops) symbols program.now) }
{
    look.counts = own_counts::<Brand>(alloc, program, symbols, Blank::new(1))?;
    survey_program(alloc, &mut look.tables, program, symbols)?;
    list_program(
        alloc,
        &mut look.scopes,
        &mut look.pattern_writes,
        program,
        symbols,
    )?;
    pass_program(alloc, &mut look.moments, program, symbols)?;
    let room = mark_writable(alloc, &mut look.writable, program)?;
    if room > symbols as usize {
        return Err(OutOfMemory);
    }
    list_asking(alloc, &mut look.asking, program)?;
    mark_tops(alloc, &mut look.tops, program, symbols)
}

impl Scopes {
    /// What is known of the names of a program with that many symbols, which was just resolved. The
    /// only error is that memory runs out.
    pub fn of(alloc: Global, program: &Node, symbols: u32) -> Result<Scopes, OutOfMemory>
        requires { length (references variant.Read program.now) + 1 < 2 ^ 32 }
        ensures { IfOk result (λ scopes. Tells scopes symbols program.now) }
    {
        let mut first_tops = Vec::new(alloc);
        mark_tops(alloc, &mut first_tops, program, symbols)?;
        let mut look = no_look(alloc);
        look_at(&mut look, alloc, program, symbols)?;
        Ok(Scopes { look, first_tops })
    }

    /// Looks at a program, and sets what is known of its names, but for which were a script's top
    /// names at first. After `OutOfMemory` that is fit only to be dropped.
    pub fn refresh(&mut self, alloc: Global, program: &Node) -> Result<(), OutOfMemory>
        requires { length (references variant.Read program.now) + 1 < 2 ^ 32 }
        ensures { OnOk result (Refreshed self.old self.new program.now) }
    {
        match u32::try_from(self.look.counts.reads.len()) {
            Ok(symbols) => look_at(&mut self.look, alloc, program, symbols),
            Err(_) => Err(OutOfMemory),
        }
    }

    /// Whether there is no room for the symbol: the program that was looked at last doesn't mention
    /// it.
    pub fn is_past(&self, symbol: SymbolId) -> bool
        ensures { result ≡ past self.now symbol.0 }
    {
        symbol.0 as usize >= self.look.counts.reads.len()
    }

    /// Whether the symbol is steady in the body with this number: no reference writes it, and it
    /// isn't foreign to the body. What a `var` of the body gives it isn't counted.
    pub fn is_steady(&self, symbol: SymbolId, body: u32) -> bool
        ensures { result ≡ steady self.now symbol.0 body }
    {
        !self.is_assigned(symbol.0) && !self.is_foreign(symbol, body)
    }

    /// Whether no event of the body with this number shows the symbol: the body doesn't share it.
    pub fn is_unshared(&self, symbol: SymbolId, body: u32) -> bool
        ensures { result ≡ unshared self.now symbol.0 body }
    {
        !self.is_shared(symbol, body)
    }

    /// Whether the symbol is steady in the body with this number, and initialised as that begins.
    /// Of a lexical name it never answers true.
    pub fn is_initial(&self, symbol: SymbolId, body: u32) -> bool
        ensures { result ≡ initial self.now symbol.0 body }
    {
        self.is_steady(symbol, body) && !is_marked(self.look.tables.lexical.as_slice(), symbol.0)
    }

    /// Whether no body with this number asks the world for `this`. (ECMA-262,
    /// "ResolveThisBinding".)
    pub fn has_this(&self, body: u32) -> bool
        ensures { result ≡ this_held self.now body }
    {
        !is_marked(self.look.asking.as_slice(), body)
    }

    /// How often the symbol is read: export specifiers, compound targets and updates are among
    /// that.
    pub fn reads(&self, symbol: SymbolId) -> u32
        ensures { result ≡ slice_index self.now.reads symbol.0 }
    {
        count_at(self.look.counts.reads.as_slice(), symbol.0)
    }

    /// How often the symbol is assigned to: targets, updates, and the heads of `for..in` and
    /// `for..of` that are no declarations; a declarator isn't counted.
    pub fn writes(&self, symbol: SymbolId) -> u32
        ensures { result ≡ slice_index self.now.writes symbol.0 }
    {
        count_at(self.look.counts.writes.as_slice(), symbol.0)
    }

    /// Whether the symbol can be written: not those of `const`, imports, the own names of function
    /// expressions, and the names that classes hold inside. (ECMA-262, "CreateImmutableBinding".)
    pub fn is_writable(&self, symbol: SymbolId) -> bool
        ensures { result ≡ not (mark_at self.now.fixed symbol.0) }
    {
        !is_marked(self.look.tables.fixed.as_slice(), symbol.0)
    }

    /// Whether the program that was looked at last mentions the symbol, and lets it be written. Of
    /// a symbol that it doesn't mention nothing is told.
    pub fn is_mentioned_writable(&self, symbol: SymbolId) -> bool
        ensures { result ≡ mark_at self.now.writable symbol.0 }
    {
        is_marked(self.look.writable.as_slice(), symbol.0)
    }

    /// Whether the symbol was one of a script's top names when the program was resolved.
    pub fn is_script_top(&self, symbol: SymbolId) -> bool
        ensures { result ≡ mark_at self.now.tops symbol.0 }
    {
        is_marked(self.first_tops.as_slice(), symbol.0)
    }

    /// The scope that declares the symbol, in the program that was looked at last.
    pub fn scope_of(&self, symbol: SymbolId) -> ScopeId
        ensures { result.0 ≡ slice_index self.now.owners symbol.0 }
    {
        ScopeId(count_at(self.look.scopes.owners.as_slice(), symbol.0))
    }

    /// Whether a direct eval can see the symbol: one stands in the scope that declares it, nested
    /// functions included.
    pub fn is_seen_by_eval(&self, symbol: SymbolId) -> bool
        ensures { result ≡ mark_at self.now.seen symbol.0 }
    {
        is_marked(self.look.scopes.seen.as_slice(), symbol.0)
    }

    /// Whether a module imports or exports the symbol. (ECMA-262, "ImportEntries",
    /// "ExportEntries".)
    pub fn is_exchanged(&self, symbol: SymbolId) -> bool
        ensures { result ≡ mark_at self.now.exchanged symbol.0 }
    {
        is_marked(self.look.tables.exchanged.as_slice(), symbol.0)
    }

    /// Whether the symbol is a parameter of a sloppy function that names its `arguments`.
    /// (ECMA-262, "CreateMappedArgumentsObject".)
    pub fn is_reached_by_arguments(&self, symbol: SymbolId) -> bool
        ensures { result ≡ mark_at self.now.reached symbol.0 }
    {
        is_marked(self.look.tables.reached.as_slice(), symbol.0)
    }

    /// Whether another body than the one with this number, or a carried node, declares, binds,
    /// reads or writes the symbol.
    pub fn is_mentioned_outside(&self, symbol: SymbolId, body: u32) -> bool
        ensures { result ≡ is_outside_of (entry_at self.now.mentioned symbol.0) body }
    {
        is_outside(
            mentioned_at(self.look.tables.mentioned.as_slice(), symbol.0),
            body,
        )
    }

    /// Whether the body with this number shares the symbol with what is outside it: others may read
    /// it while the body runs.
    pub fn is_shared(&self, symbol: SymbolId, body: u32) -> bool
        ensures { result ≡ shares self.now symbol.0 body }
    {
        self.is_shared_always(symbol) || self.is_mentioned_outside(symbol, body)
    }

    /// Whether every body that mentions the symbol shares it: it is one of a script's top names or
    /// exchanged, a direct eval or `arguments` reaches it, or the pattern of a `var` or a `var`
    /// under a catch parameter of its name writes it.
    pub fn is_shared_always(&self, symbol: SymbolId) -> bool
        ensures { result ≡ shared_always self.now symbol.0 }
    {
        is_marked(self.look.tops.as_slice(), symbol.0)
            || is_marked(self.look.tables.exchanged.as_slice(), symbol.0)
            || is_marked(self.look.scopes.seen.as_slice(), symbol.0)
            || is_marked(self.look.tables.reached.as_slice(), symbol.0)
            || is_marked(self.look.tables.caught.as_slice(), symbol.0)
            || is_marked(self.look.pattern_writes.as_slice(), symbol.0)
    }

    /// Whether the symbol is foreign to the body with this number: others may change it while the
    /// body runs, or it may be uninitialised where the body reads it.
    pub fn is_foreign(&self, symbol: SymbolId, body: u32) -> bool
        ensures { result ≡ foreign self.now symbol.0 body }
    {
        self.is_foreign_always(symbol.0)
            || (self.is_shared(symbol, body) && self.is_changed_outside(symbol.0, body))
            || (!self.is_home(symbol.0, body) && self.is_changed(symbol.0))
            || self.may_be_unset(symbol.0, body)
    }

    // Whether the symbol is foreign to every body.
    fn is_foreign_always(&self, symbol: u32) -> bool
        ensures { result ≡ foreign_always self.now symbol }
    {
        is_marked(self.look.tables.imported.as_slice(), symbol)
            || is_marked(self.look.tops.as_slice(), symbol)
            || is_marked(self.look.scopes.seen.as_slice(), symbol)
            || is_marked(self.look.tables.reached.as_slice(), symbol)
            || is_marked(self.look.tables.patterns.as_slice(), symbol)
            || is_marked(self.look.pattern_writes.as_slice(), symbol)
    }

    // Whether a reference writes the symbol.
    fn is_assigned(&self, symbol: u32) -> bool
        ensures { result ≡ assigned self.now symbol }
    {
        is_somewhere(mentioned_at(self.look.tables.written.as_slice(), symbol))
    }

    // Whether a `var` gives the symbol a value, or a reference writes it.
    fn is_changed(&self, symbol: u32) -> bool
        ensures { result ≡ changes self.now symbol }
    {
        is_somewhere(mentioned_at(self.look.tables.given.as_slice(), symbol))
            || self.is_assigned(symbol)
    }

    // Whether something writes the symbol in another body than this or in a carried node.
    fn is_changed_outside(&self, symbol: u32, body: u32) -> bool
        ensures { result ≡ is_changed_outside self.now symbol body }
    {
        is_outside(
            mentioned_at(self.look.tables.given.as_slice(), symbol),
            body,
        ) || is_outside(
            mentioned_at(self.look.tables.written.as_slice(), symbol),
            body,
        )
    }

    // Whether a body declares the symbol.
    fn is_home(&self, symbol: u32, body: u32) -> bool
        ensures { result ≡ holds self.now.homes symbol body }
    {
        holds_number(self.look.tables.homes.as_slice(), symbol, body)
    }

    // Whether the symbol may be uninitialised where a body reads it.
    fn may_be_unset(&self, symbol: u32, body: u32) -> bool
        ensures { result ≡ may_be_unset self.now symbol body }
    {
        (is_marked(self.look.tables.lexical.as_slice(), symbol)
            && (!self.is_home(symbol, body)
                || is_marked(self.look.tables.switched.as_slice(), symbol)
                || holds_number(self.look.moments.early.as_slice(), symbol, body)))
            || is_around(&self.look.tables.enclosing, symbol, body)
    }

    /// Whether the scope's code is strict. (ECMA-262, "Strict Mode Code".)
    pub fn is_strict(&self, scope: ScopeId) -> bool
        ensures { result ≡ mark_at self.now.strict scope.0 }
    {
        is_marked(self.look.scopes.strict.as_slice(), scope.0)
    }

    /// Whether a direct eval stands in the scope, nested functions included.
    pub fn has_direct_eval(&self, scope: ScopeId) -> bool
        ensures { result ≡ mark_at self.now.evals scope.0 }
    {
        is_marked(self.look.scopes.evals.as_slice(), scope.0)
    }

    /// Whether `this` in the body with this number is the event of reading what `super()` binds.
    /// (ECMA-262, "BindThisValue".)
    pub fn this_has_event(&self, body: u32) -> bool
        ensures { result ≡ mark_at self.now.this_events body }
    {
        is_marked(self.look.tables.this_events.as_slice(), body)
    }

    /// Whether the body with this number is that of a function that is neither an arrow nor a
    /// static block, or of an arrow which stands in such a body by arrows alone. (ECMA-262,
    /// "FunctionDeclarationInstantiation".)
    pub fn has_arguments(&self, body: u32) -> bool
        ensures { result ≡ mark_at self.now.arguments body }
    {
        is_marked(self.look.tables.arguments.as_slice(), body)
    }

    /// Counts the references of a part out, that is to be dropped. A step is one reference.
    pub fn count_out<L: Ledger>(&mut self, part: &Node, steps: &mut Steps<L>)
        requires reads { Contained is_read (references variant.Read part.now) self.old.reads }
        requires writes { Contained is_write (references variant.Read part.now) self.old.writes }
        ensures reads { FellBy is_read (references variant.Read part.now) self.old.reads self.new.reads }
        ensures writes { FellBy is_write (references variant.Read part.now) self.old.writes self.new.writes }
        ensures rest { self.new ≡ record self.old { reads = self.new.reads; writes = self.new.writes } }
        ensures steps { steps.new ≡ steps.old + length (references variant.Read part.now) }
    {
        count_out(&mut self.look.counts, part, steps);
    }
}
