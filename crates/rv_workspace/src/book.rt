//! The book of names, whose relations stand in its archive.
ghost use Rattle.std.specs.Prelude.{◌≡◌, ◌∷◌, ◌++◌, [], ℕ, List, All, IfOk, OnOk, OnErr};
ghost use Rattle.std.specs.Option.{option_map};
ghost use Rattle.rel_model.specs.Worker.{Stands};
ghost use Rattle.rel_model.specs.Seats.{Kin, Learns};
ghost use Rattle.run_model.specs.Names.{lookup, set};
ghost use Rattle.run_model.specs.Versions.{noted};
ghost use Rattle.run_model.specs.Carried.{no_first};
ghost use Rattle.rv_workspace.specs.Books.{Held, IsBook, AllNamesStand, AreFew, StandAlike, names_of, versions_of};
ghost use Rattle.rv_workspace.specs.Entering.{read_of, assign_of, assigns, dropped, drop_entries, IsDropAnswer};
ghost use Rattle.rv_workspace.specs.Committing.{change_since, committed, commit_entries, IsCommitAnswer};
ghost use Rattle.name_map.specs.Giving.{set_all};
ghost use Rattle.rv_workspace.specs.Picking.{picked};

use crate::committing::commit_all;
use crate::dropping::drop_one;
use crate::giving::{give_all, give_one};
use crate::reading::{View, take_view};
use crate::refused::{CommitRefused, DropRefused};
use lang_model::syntax::Name;
use name_map::NameMap;
use rel_model::exchange::exchange;
use rel_model::seated_trait::Seated;
use rel_model::{NoMemory, Rel};
use run_model::event::Event;
use rv_blocks::Versions;
use std::alloc::Global;
use std::marker::Model;
use std::snapshot::Snapshot;

/// Names with their relations, the history of what happened to them, and the archive, a worker in which all these
/// relations stand. The names and versions with which the book began are remembered in clauses only, and take no
/// memory.
#[derive(Drop)]
pub struct Book<E: Seated> {
    archive: E,
    names: NameMap<Rel>,
    versions: Versions,
    history: Vec<Event>,
    first_names: Snapshot<NameMap<Rel>>,
    first_versions: Snapshot<Versions>,
}

impl<E: Seated> Model for Book<E> {
    ghost use Rattle.rv_workspace.specs.Books.{AreLeft, Held, IsBook};

    ghost Value = { Held E };

    ghost view = { λ b. record {
      history = b.history.items;
      archive = b.archive;
      first = record { names = b.first_names.value; versions = b.first_versions.value };
    } };

    ghost invariant = { λ b. AreLeft b.names b.versions
        (record { names = b.first_names.value; versions = b.first_versions.value }) b.history.items
        × IsBook E.worker (record {
          history = b.history.items;
          archive = b.archive;
          first = record { names = b.first_names.value; versions = b.first_versions.value };
        }) };
}

impl<E: Seated> Book<E> {
    /// A book without names, over a worker from which one other may be split off.
    pub fn new(alloc: Global, archive: E) -> Book<E>
        requires spare { (E.worker archive).spare ≡ 1 }
        requires made { (E.worker archive).made ≡ 0 }
        ensures { result ≡ record { history = []; archive = archive; first = no_first } }
    {
        Book::with(alloc, archive, NameMap::new(alloc), Versions::new(alloc))
    }

    /// A book that begins with these names and versions, over a worker in which the relations of the names stand, and
    /// from which one other may be split off. Nothing has happened to the names yet. It takes no memory.
    pub fn with(alloc: Global, archive: E, names: NameMap<Rel>, versions: Versions) -> Book<E>
        requires spare { (E.worker archive).spare ≡ 1 }
        requires made { (E.worker archive).made ≡ 0 }
        requires stand { AllNamesStand (E.worker archive) names }
        requires few { AreFew versions }
        ensures { result ≡ record {
          history = [];
          archive = archive;
          first = record { names = names; versions = versions };
        } }
    {
        let first_names = Snapshot::of(&names);
        let first_versions = Snapshot::of(&versions);
        let history = Vec::new(alloc);
        Book {
            archive,
            names,
            versions,
            history,
            first_names,
            first_versions,
        }
    }

    /// The wanted names with their relations, or all of them; another worker learns the relations, and the read is
    /// entered into the history. Refused only if memory runs out.
    pub fn read(
        &mut self,
        alloc: Global,
        session: u32,
        command: u32,
        wanted: Option<&[Name]>,
        mine: &mut E,
    ) -> Result<View, NoMemory>
        requires kin { Kin (E.worker mine.old) (E.worker self.old.archive) }
        ensures names { IfOk result (λ v. v.names.items
            ≡ picked (option_map (λ x. x.now) wanted.entry) (names_of self.old)) }
        ensures stand { IfOk result (λ v. StandAlike (E.worker self.old.archive) (E.worker mine.new) v.names.items) }
        ensures entered { OnOk result (self.new.history ≡ self.old.history ++ read_of session command ∷ []) }
        ensures as_before { OnErr result (self.new.history ≡ self.old.history) }
        ensures first { self.new.first ≡ self.old.first }
        ensures same_names { names_of self.new ≡ names_of self.old }
        ensures archive { Learns (E.worker self.old.archive) (E.worker mine.old) (E.worker self.new.archive) }
        ensures mine { Learns (E.worker mine.old) (E.worker self.old.archive) (E.worker mine.new) }
    {
        // This use makes the checker open the invariant of `self`, which the calls on its fields below need.
        let _ = &self.archive;
        exchange(mine, &mut self.archive);
        take_view(
            &self.names,
            &mut self.history,
            alloc,
            session,
            command,
            wanted,
        )
    }

    /// Another worker learns everything that stands in the archive. Names and history are unchanged.
    pub fn teach(&mut self, mine: &mut E)
        requires kin { Kin (E.worker mine.old) (E.worker self.old.archive) }
        ensures history { self.new.history ≡ self.old.history }
        ensures first { self.new.first ≡ self.old.first }
        ensures archive { Learns (E.worker self.old.archive) (E.worker mine.old) (E.worker self.new.archive) }
        ensures mine { Learns (E.worker mine.old) (E.worker self.old.archive) (E.worker mine.new) }
    {
        let _ = &self.archive;
        exchange(mine, &mut self.archive);
    }

    /// From here on each name of the list has the relation at its last place in the list; or nothing changes. One
    /// assignment is entered for each place, in order. The archive learns everything that stands in the worker that has
    /// the relations.
    pub fn assign_all(
        &mut self,
        alloc: Global,
        session: u32,
        command: u32,
        list: Vec<(Name, Rel)>,
        mine: &mut E,
    ) -> Result<(), NoMemory>
        requires kin { Kin (E.worker mine.old) (E.worker self.old.archive) }
        requires stand { All (λ gift. Stands (E.worker mine.old) gift.1) list.items }
        ensures names { OnOk result (names_of self.new ≡ set_all list.items (names_of self.old)) }
        ensures entered { OnOk result (self.new.history ≡ self.old.history ++ assigns session command list.items) }
        ensures as_before { OnErr result (self.new.history ≡ self.old.history) }
        ensures first { self.new.first ≡ self.old.first }
        ensures archive { Learns (E.worker self.old.archive) (E.worker mine.old) (E.worker self.new.archive) }
        ensures mine { Learns (E.worker mine.old) (E.worker self.old.archive) (E.worker mine.new) }
    {
        let _ = &self.archive;
        exchange(mine, &mut self.archive);
        give_all(
            &mut self.names,
            &mut self.versions,
            &mut self.history,
            alloc,
            session,
            command,
            list,
        )
    }

    /// From here on the name has this relation; or nothing changes. The assignment is entered, and the archive learns
    /// everything that stands in the worker that has the relation.
    pub fn assign(
        &mut self,
        alloc: Global,
        session: u32,
        command: u32,
        name: Name,
        rel: Rel,
        mine: &mut E,
    ) -> Result<(), NoMemory>
        requires kin { Kin (E.worker mine.old) (E.worker self.old.archive) }
        requires stands { Stands (E.worker mine.old) rel }
        ensures names { OnOk result (names_of self.new ≡ set name rel (names_of self.old)) }
        ensures entered { OnOk result (self.new.history
            ≡ self.old.history ++ assign_of session command (name, rel) ∷ []) }
        ensures as_before { OnErr result (self.new.history ≡ self.old.history) }
        ensures first { self.new.first ≡ self.old.first }
        ensures archive { Learns (E.worker self.old.archive) (E.worker mine.old) (E.worker self.new.archive) }
        ensures mine { Learns (E.worker mine.old) (E.worker self.old.archive) (E.worker mine.new) }
    {
        let _ = &self.archive;
        exchange(mine, &mut self.archive);
        give_one(
            &mut self.names,
            &mut self.versions,
            &mut self.history,
            alloc,
            session,
            command,
            name,
            rel,
        )
    }

    /// The version of a name: the one that it began with, plus how often it was assigned or dropped since. It takes no
    /// memory.
    pub fn version(&self, name: &Name) -> u64
        ensures { result ≡ versions_of self.now name.now }
    {
        self.versions.of(name)
    }

    /// Makes the assignments of a block, as `assign_all` does, if each name that the block read still has the version
    /// that it had then. Otherwise reports the first that has another, with both versions, and enters a read. Versions
    /// are compared, never relations.
    pub fn commit(
        &mut self,
        alloc: Global,
        session: u32,
        command: u32,
        reads: &[(Name, u64)],
        list: Vec<(Name, Rel)>,
        mine: &mut E,
    ) -> Result<(), CommitRefused>
        requires kin { Kin (E.worker mine.old) (E.worker self.old.archive) }
        requires stand { All (λ gift. Stands (E.worker mine.old) gift.1) list.items }
        ensures answer { IsCommitAnswer (change_since self.old.first.versions reads.now self.old.history) result }
        ensures names { names_of self.new ≡ committed list.items result (names_of self.old) }
        ensures entered { self.new.history
            ≡ self.old.history ++ commit_entries session command list.items result }
        ensures first { self.new.first ≡ self.old.first }
        ensures archive { Learns (E.worker self.old.archive) (E.worker mine.old) (E.worker self.new.archive) }
        ensures mine { Learns (E.worker mine.old) (E.worker self.old.archive) (E.worker mine.new) }
    {
        let _ = &self.archive;
        exchange(mine, &mut self.archive);
        commit_all(
            &mut self.names,
            &mut self.versions,
            &mut self.history,
            alloc,
            session,
            command,
            reads,
            list,
        )
    }

    /// From here on the name has no relation, and the removal is entered. Refused if there is no such name, and then a
    /// read is entered.
    pub fn drop_name(
        &mut self,
        alloc: Global,
        session: u32,
        command: u32,
        name: &Name,
    ) -> Result<(), DropRefused>
        ensures names { names_of self.new ≡ dropped name.now result (names_of self.old) }
        ensures answer { IsDropAnswer (lookup (names_of self.old) name.now) name.now result }
        ensures entered { self.new.history ≡ self.old.history ++ drop_entries session command name.now result }
        ensures first { self.new.first ≡ self.old.first }
        ensures archive { self.new.archive ≡ self.old.archive }
    {
        let _ = &self.archive;
        drop_one(
            &mut self.names,
            &mut self.versions,
            &mut self.history,
            alloc,
            session,
            command,
            name,
        )
    }

    /// What happened to the names, oldest event first.
    pub fn history(&self) -> &[Event]
        ensures value { result.now ≡ self.now.history }
        ensures book { IsBook E.worker self.now }
    {
        self.history.as_slice()
    }

    /// The archive, the history, and the present names and versions. It takes no memory.
    pub fn into_parts(self) -> (E, Vec<Event>, NameMap<Rel>, Versions)
        ensures archive { result.0 ≡ self.archive }
        ensures history { result.1.items ≡ self.history }
        ensures names { result.2 ≡ names_of self }
        ensures versions { (name : List ℕ) → noted result.3 name ≡ versions_of self name }
        ensures book { IsBook E.worker self }
    {
        let Book {
            archive,
            names,
            versions,
            history,
            first_names: _,
            first_versions: _,
        } = self;
        (archive, history, names, versions)
    }
}
