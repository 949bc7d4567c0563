//! Lines of configurations, written.
ghost use Rattle.std.specs.Prelude.{◌≡◌, ◌<◌, ◌++◌, codes, decimal, false, get_or, length, map, string_bytes, IfOk, []};
ghost use Rattle.serde_json.specs.View.{items_of};
ghost use Rattle.serde_json.specs.Written.{compact_text, items_text};
ghost use Rattle.rb_history.specs.Adds.{Adds};
ghost use Rattle.rb_history.specs.ConfigLines.{accounts_of, config_json, start_json};

use crate::keys::spell;
use crate::write::account::append_account;
use crate::write::append::{append, append_number};
use rb_money::{Cents, Config, Limits, Place};
use std::alloc::{AllocError, Global};

/// An account, after a text: its name and its starting balance.
fn append_start(
    out: &mut Vec<u8>,
    comma: &str,
    config: &Config,
    place: Place,
) -> Result<(), AllocError>
    requires account { place.0 < length config.now.starts }
    ensures { Adds result out.old.items out.new.items (comma.now
        ++ compact_text (start_json (get_or config.now.names place.0 [], get_or config.now.starts place.0 0))) }
{
    let Some(Cents(start)) = config.accounts().start(place) else {
        unreachable!();
    };
    append(out, comma)?;
    append_account(out, "[", config, place, ",")?;
    append_number(out, "", start, "]")
}

/// The accounts in order of place, with the closing bracket of their list.
fn append_accounts(out: &mut Vec<u8>, config: &Config) -> Result<(), AllocError>
    ensures { Adds result out.old.items out.new.items (items_text false
        (items_of (map start_json (accounts_of config.now.names config.now.starts)))) }
{
    let mut comma = "";
    for place in 0..config.accounts().len() {
        append_start(out, comma, config, Place(place as u16))?;
        comma = ",";
    }
    append(out, "]")
}

/// The limits, each after its key, and the key of the sites.
fn append_limits(out: &mut Vec<u8>, limits: Limits) -> Result<(), AllocError>
    ensures { Adds result out.old.items out.new.items (codes ",\"blue\":" ++ (decimal limits.blue
        ++ (codes ",\"epoch\":" ++ (decimal limits.epoch ++ (codes ",\"history\":" ++ (decimal limits.history
        ++ (codes ",\"inbox\":" ++ (decimal limits.inbox ++ (codes ",\"red\":" ++ (decimal limits.red
        ++ codes ",\"sites\":")))))))))) }
{
    append_number(
        out,
        spell!("," blue ":"),
        limits.blue as u64,
        spell!("," epoch ":"),
    )?;
    append_number(out, "", limits.epoch as u64, spell!("," history ":"))?;
    append_number(out, "", limits.history as u64, spell!("," inbox ":"))?;
    append_number(out, "", limits.inbox as u64, spell!("," red ":"))?;
    append_number(out, "", limits.red as u64, spell!("," sites ":"))
}

/// The sites, the version and the end of the object.
fn append_end(out: &mut Vec<u8>, sites: u8, version: u8) -> Result<(), AllocError>
    ensures { Adds result out.old.items out.new.items (decimal sites ++ (codes ",\"version\":" ++ (decimal version
        ++ codes "}"))) }
{
    append_number(out, "", sites as u64, spell!("," version ":"))?;
    append_number(out, "", version as u64, "}")
}

/// The JSON object of a configuration, on one line.
fn append_config(out: &mut Vec<u8>, config: &Config) -> Result<(), AllocError>
    ensures { Adds result out.old.items out.new.items (compact_text (config_json config.now)) }
{
    append(out, spell!("{" accounts ":["))?;
    append_accounts(out, config)?;
    append_limits(out, config.limits())?;
    append_end(out, config.sites(), config.version())
}

/// The line of a configuration, without a line feed. An `Err` means out of memory.
pub fn write_config(alloc: Global, config: &Config) -> Result<String, AllocError>
    ensures { IfOk result (λ s. string_bytes s ≡ compact_text (config_json config.now)) }
{
    // For a fact alone: its names are those of a configuration.
    let _sites = config.sites();
    let mut bytes = Vec::new(alloc);
    append_config(&mut bytes, config)?;
    match String::from_utf8(bytes) {
        Ok(text) => Ok(text),
        Err(_) => unreachable!(),
    }
}
