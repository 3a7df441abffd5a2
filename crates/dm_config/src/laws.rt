//! Laws of what a text is answered. They are about the definitions that the clauses of `read_config` cite, and make no call of
//! it: each is a function with nothing to run, whose contract is the law.

ghost use Rattle.std.specs.Prelude.{◌≡◌, List, ℕ};
ghost use Rattle.dm_base.specs.declared.conf.ConfKey.{ConfKey};
ghost use Rattle.dm_config.specs.declared.config.Config.{Config};
ghost use Rattle.dm_config.specs.Config.{Configures, IsRefusedFor};

/// No text is refused for two keys.
pub fn a_text_is_refused_for_one_key()
    ensures { (text : List ℕ) (k l : ConfKey) → IsRefusedFor text k → IsRefusedFor text l → k ≡ l }
{}

/// No text that is refused configures anything.
pub fn what_is_refused_configures_nothing()
    ensures { (text : List ℕ) (k : ConfKey) (c : Config) → IsRefusedFor text k → Configures text c → ⊥ }
{}
