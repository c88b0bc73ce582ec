//! Reading a configuration: the octets of a text come in, and what it configures goes out, or the
//! first rule that it breaks.
ghost use Rattle.std.specs.Prelude.{◌≡◌, ◌⊎◌, IfOk, IfErr, Ok, Err, None, Some};
ghost use Rattle.toml.specs.Errors.{IsBlank};
ghost use Rattle.toml.specs.View.{view};
ghost use Rattle.router_config.specs.Configured.{AreConfigured};
ghost use Rattle.router_config.specs.Rules.{first_broken, rules};
ghost use Rattle.router_config.specs.Settings.{IsConfig, IsRefused, Settings, settings_of};
ghost use Rattle.router_config.specs.declared.faults.ConfigFault.{ConfigFault};

use crate::config::Config;
use crate::faults::{ConfigFault, ConfigKind, ReadConfig};
use crate::rules::first_fault;
use crate::settings::settings_of;
use std::alloc::Global;
use toml::Value;

/// Reads a configuration, a TOML document in UTF-8. `Bad` names the first rule that is broken.
pub fn read_config(alloc: Global, text: &[u8]) -> Result<Config, ReadConfig>
    // What is read is what the text configures, and the fault is that of the first broken rule.
    ensures found { IfOk result (IsConfig text.now) }
    ensures configured { IfOk result AreConfigured }
    ensures bad { (fault : ConfigFault) → result ≡ Err (ReadConfig.Bad fault) → IsRefused text.now fault }
    // What the text configures is read, unless memory runs out, and so with a fault.
    ensures only { (config : Settings) → IsConfig text.now config
        → (result ≡ Ok config) ⊎ (result ≡ Err ReadConfig.OutOfMemory) }
    ensures only_bad { (fault : ConfigFault) → IsRefused text.now fault
        → (result ≡ Err (ReadConfig.Bad fault)) ⊎ (result ≡ Err ReadConfig.OutOfMemory) }
    // Memory can run out only for a text that is more than blanks and comments.
    ensures memory { result ≡ Err ReadConfig.OutOfMemory → ¬ (IsBlank text.now) }
{
    let error = match toml::table_from_slice(alloc, text) {
        Ok(table) => return read_document(alloc, &Value::Table(table)),
        Err(error) => error,
    };
    if error.is_memory() {
        return Err(ReadConfig::OutOfMemory);
    }
    Err(ReadConfig::Bad(ConfigFault {
        kind: ConfigKind::NotToml,
        index: 0,
    }))
}

/// Reads what a document configures.
fn read_document(alloc: Global, document: &Value) -> Result<Config, ReadConfig>
    ensures kept { IfOk result (λ config. first_broken (rules (view document.now)) ≡ None) }
    ensures value { IfOk result (λ config. config ≡ settings_of (view document.now)) }
    ensures bad { (fault : ConfigFault) → result ≡ Err (ReadConfig.Bad fault)
        → first_broken (rules (view document.now)) ≡ Some fault }
    ensures only { (fault : ConfigFault) → first_broken (rules (view document.now)) ≡ Some fault
        → result ≡ Err (ReadConfig.Bad fault) }
    ensures memory { result ≡ Err ReadConfig.OutOfMemory → first_broken (rules (view document.now)) ≡ None }
{
    if let Some(fault) = first_fault(document) {
        return Err(ReadConfig::Bad(fault));
    }
    let Ok(config) = settings_of(alloc, document) else {
        return Err(ReadConfig::OutOfMemory);
    };
    Ok(config)
}
