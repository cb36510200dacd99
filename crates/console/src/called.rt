// What the program is called with: shell FILE [PAGES] [--acts].
use crate::trouble::Trouble;
use spelling::Options;
use std::env;

#[derive(Drop)]
pub struct Called {
    pub path: String,
    pub options: Options,
}

impl Called {
    // `with` adds a word to the options, if it is one.
    pub fn from_args<F: Fn(Options, &[u8]) -> Option<Options> + Drop>(
        rt: &HostRuntime,
        with: F,
    ) -> Result<Called, Trouble>
        requires { F.IsAlwaysCallable with }
    {
        let mut args = env::args(rt)?;
        let _program = args.next();
        let path = args.next().ok_or(Trouble::Usage)?;
        let mut options = Options::default();
        for word in args {
            options = with(options, word.as_bytes()).ok_or(Trouble::Usage)?;
        }
        Ok(Called { path, options })
    }
}
