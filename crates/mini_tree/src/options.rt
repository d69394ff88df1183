//! What the minifier may do, and how far it goes.

ghost use Rattle.std.specs.Prelude.{◌≡◌};
ghost use Rattle.mini_tree.specs.Options.{default_options};

/// The kinds of expressions that keep their name although nothing refers to it.
#[derive(Clone, Copy)]
pub struct KeepNames {
    /// Function expressions do.
    pub function: bool,
    /// Class expressions do.
    pub class: bool,
}

/// What the minifier may do, and how far it goes.
#[derive(Clone, Copy)]
pub struct CompressOptions {
    /// Statements may be joined by commas.
    pub sequences: bool,
    /// Declarations may be joined.
    pub join_vars: bool,
    /// Which expressions keep a name that nothing refers to.
    pub keep_names: KeepNames,
    /// How many passes are made at most; 0 is read as 1.
    pub passes: u32,
    /// How deep the nodes of an input may nest, the program being at depth 1.
    pub max_depth: u32,
    /// The edition of ECMA-262, as a year, of which the answer holds no newer form that the input
    /// lacks: 2015 to 2022. What is below 2015 is read as 2015, and what is above 2022 as 2022.
    pub edition: u16,
    /// Conversions of values to text and number are taken to have no effect.
    pub pure_coercion: bool,
    /// Calls of the global functions are taken to do what ECMA-262 says.
    pub known_calls: bool,
}

impl CompressOptions {
    /// The default: joins statements and declarations, keeps no names, makes as many passes as it
    /// takes, reads nodes to a depth of 120, writes forms of every edition up to 2022, and assumes
    /// nothing of the outside.
    pub fn new() -> CompressOptions
        ensures { result ≡ default_options }
    {
        CompressOptions {
            sequences: true,
            join_vars: true,
            keep_names: KeepNames {
                function: false,
                class: false,
            },
            passes: 4_294_967_295,
            max_depth: 120,
            edition: 2022,
            pure_coercion: false,
            known_calls: false,
        }
    }
}
