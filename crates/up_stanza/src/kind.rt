//! The first tokens of stanzas.
ghost use Rattle.std.specs.Prelude.{◌≡◌};
ghost use Rattle.up_stanza.specs.Kinds.{kind_of};

/// A first token whose arguments are the tokens up to the stanza's end. Several stanzas may begin with it, as with `kill`.
#[derive(Clone, Copy)]
pub(crate) enum Listed {
    Description,
    Author,
    Version,
    Usage,
    Emits,
    Env,
    Export,
    Task,
    Manual,
    Respawn,
    Normal,
    Kill,
    Reload,
    Instance,
    Console,
    Chdir,
}

/// A kind of stanza, by its first token.
#[derive(Clone, Copy)]
pub(crate) enum Kind {
    Listed(Listed),
    Exec,
    Script,
    PreStart,
    PostStart,
    PreStop,
    PostStop,
    Start,
    Stop,
}

/// `None` if no stanza begins with this word.
#[tactic(auto, unfolding(crate::specs::Kinds::kind_of))]
pub(crate) fn kind_of(word: &str) -> Option<Kind>
    ensures { result ≡ kind_of word.now }
{
    match word {
        "description" => Some(Kind::Listed(Listed::Description)),
        "author" => Some(Kind::Listed(Listed::Author)),
        "version" => Some(Kind::Listed(Listed::Version)),
        "usage" => Some(Kind::Listed(Listed::Usage)),
        "emits" => Some(Kind::Listed(Listed::Emits)),
        "env" => Some(Kind::Listed(Listed::Env)),
        "export" => Some(Kind::Listed(Listed::Export)),
        "task" => Some(Kind::Listed(Listed::Task)),
        "manual" => Some(Kind::Listed(Listed::Manual)),
        "respawn" => Some(Kind::Listed(Listed::Respawn)),
        "normal" => Some(Kind::Listed(Listed::Normal)),
        "kill" => Some(Kind::Listed(Listed::Kill)),
        "reload" => Some(Kind::Listed(Listed::Reload)),
        "instance" => Some(Kind::Listed(Listed::Instance)),
        "console" => Some(Kind::Listed(Listed::Console)),
        "chdir" => Some(Kind::Listed(Listed::Chdir)),
        "exec" => Some(Kind::Exec),
        "script" => Some(Kind::Script),
        "pre-start" => Some(Kind::PreStart),
        "post-start" => Some(Kind::PostStart),
        "pre-stop" => Some(Kind::PreStop),
        "post-stop" => Some(Kind::PostStop),
        "start" => Some(Kind::Start),
        "stop" => Some(Kind::Stop),
        _ => None,
    }
}
