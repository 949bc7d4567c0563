//! One site by lines.
ghost use Rattle.std.specs.Prelude.{◌≡◌, ◌<◌, ◌≤◌, Some, None, IfOk, Err};
ghost use Rattle.rb_money.specs.Settings.{Settings};
ghost use Rattle.rb_history.specs.Configurations.{config_on};
ghost use Rattle.rb_history.specs.ConfigLines.{config_json};
ghost use Rattle.rb_node.specs.Answers.{line_of};
ghost use Rattle.rb_node.specs.Asked.{first_asked};

use crate::asked_site::AskedSite;
use crate::fault::OpenFault;
use crate::records::Records;
use rb_history::{BankName, LineFault, open_config, write_config};
use rb_money::Config;
use rb_site::Message;
use std::alloc::{AllocError, Global};
use std::marker::{Model, PhantomData};

/// One site of a bank, which answers lines by lines. `M` says which events it records. It keeps no history: that
/// is the caller's, as the lines of entries. It can't be dropped: it is closed.
pub struct Node<M: Records> {
    pub(crate) alloc: Global,
    pub(crate) config: Config,
    pub(crate) site: AskedSite,
    /// The messages of the last event.
    pub(crate) sent: Vec<Message>,
    /// The last entry, written to compare it with its line, or two replies that differ; it keeps its memory from one
    /// entry to the next.
    pub(crate) written: Vec<u8>,
    records: PhantomData<M>,
}

impl<M: Records> Model for Node<M> {
    ghost use Rattle.std.specs.Prelude.{◌≡◌};
    ghost use Rattle.rb_node.specs.Answers.{SeenNode};

    ghost Value = { SeenNode };

    ghost view = { λ n. record { site = n.site; sent = n.sent.items } };

    ghost invariant = { λ n. n.site.settings ≡ n.config };
}

impl<M: Records> Node<M> {
    /// The site `me` (0 to 15) of the configuration on a line, before any event. If the bank has a name, each message
    /// has it: those that are sent, and those that come.
    ///
    /// Errors: `BadConfig` if the line isn't a configuration; `NoSite` if it has no such site; `OutOfMemory`.
    pub fn open(alloc: Global, line: &[u8], me: u8, bank: BankName) -> Result<Node<M>, OpenFault>
        ensures opened { IfOk result (λ node. (s : Settings) × (config_on line.now ≡ Some s) × (me < s.sites)
            × (node.site ≡ first_asked s me bank)) }
        ensures bad { result ≡ Err OpenFault.BadConfig → config_on line.now ≡ None }
        ensures no_site { result ≡ Err OpenFault.NoSite → (s : Settings) × (config_on line.now ≡ Some s)
            × (s.sites ≤ me) }
    {
        let config = match open_config(alloc, line) {
            Ok(config) => config,
            Err(LineFault::Bad) => return Err(OpenFault::BadConfig),
            Err(LineFault::OutOfMemory) => return Err(OpenFault::OutOfMemory),
        };
        if me >= config.sites() {
            return Err(OpenFault::NoSite);
        }
        let site = AskedSite::open(alloc, &config, me, bank)?;
        Ok(Node {
            alloc,
            config,
            site,
            sent: Vec::new(alloc),
            written: Vec::new(alloc),
            records: PhantomData,
        })
    }

    /// The configuration.
    pub fn config(&self) -> &Config
        ensures { result.now ≡ self.now.site.settings }
    {
        &self.config
    }

    /// The name of its bank, or none.
    pub fn bank(&self) -> &BankName
        ensures { result.now ≡ self.now.site.bank }
    {
        self.site.bank()
    }

    /// The site's number.
    pub fn me(&self) -> u8
        ensures { result ≡ self.now.site.me }
    {
        self.site.site().me()
    }

    /// The line of the configuration, with its line feed: the first of a journal. An `Err` means out of memory.
    pub fn config_line(&self) -> Result<Vec<u8>, AllocError>
        ensures { IfOk result (λ line. line.items ≡ line_of (config_json self.now.site.settings)) }
    {
        let mut line = write_config(self.alloc, &self.config)?.into_bytes();
        line.push(b'\n')?;
        Ok(line)
    }

    /// Closes the site.
    pub fn close(self) {
        let Node {
            alloc: _,
            config: _,
            site,
            sent: _,
            written: _,
            records: _,
        } = self;
        site.close();
    }
}
