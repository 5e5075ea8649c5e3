//! The setup of an engine: its jobs and their environments.
ghost use Rattle.std.specs.Prelude.{◌≡◌, ◌++◌, is_some, not, true, map, None, Some, slice_get, unwrap_or, IfOk, OnOk, IfSome, IfNone};
ghost use Rattle.std.specs.Option.{option_copied};
ghost use Rattle.std.specs.Str.{bytes_eq};
ghost use Rattle.up_book.specs.Keeps.{AreDistinct};
ghost use Rattle.up_conf.specs.declared.job.JobDef.{JobDef as JobDefValue};
ghost use Rattle.up_book.specs.Keys.{Mode, job_at, name_at};
ghost use Rattle.up_conf.specs.Order.{in_order, is_below};
ghost use Rattle.up_cascade.specs.Naming.{AreOthers, name_of};
ghost use Rattle.up_job.specs.Named.{AreInOrder};
ghost use Rattle.up_job.specs.Named as by_name;
ghost use Rattle.up_model.specs.Chronicle.{Chronicle};
ghost use Rattle.up_model.specs.Configuration.{Configuration, is_removed, job_named, started_with};
ghost use Rattle.up_model.specs.Files.{job_names};
ghost use Rattle.up_model.specs.Instances.{instances_of};
ghost use Rattle.up_model.specs.Values.{Bytes};
ghost use Rattle.up_text.specs.Scripts.{is_filled};
ghost use Rattle.up_model.specs.Loads.{goes_on, going_on, with_jobs, without_start};
ghost use Rattle.up_model.specs.Environments.{with_value, setting_value, with_settings, job_env, env_of_job};

use std::alloc::{AllocError, Global};
use std::marker::Model;
use up_book::Book;
use up_conf::{JobDef, Setting};
use up_image::{JobFile, Table};
use up_text::{Env, Name, Text};

/// The jobs, the names of those that a load removed, the environment that init was started with, and on top of that the one of each job,
/// made once. Contracts see the configuration of a run.
#[derive(Drop)]
pub struct Setup {
    base: Env,
    files: Vec<JobFile>,
    environments: Vec<Env>,
    removed: Vec<Name>,
}

impl Model for Setup {
    ghost use Rattle.std.specs.Prelude.{◌≡◌, map};
    ghost use Rattle.std.specs.Coded.{codes};
    ghost use Rattle.up_conf.specs.contracts.job.JobDef as job;
    ghost use Rattle.up_cascade.specs.Naming.{name_of};
    ghost use Rattle.up_job.specs.Named.{AreInOrder};
    ghost use Rattle.up_model.specs.Configuration.{Configuration};
    ghost use Rattle.up_model.specs.Environments.{job_env};

    ghost Value = { Configuration };

    ghost coded = { Prim.hlevel (codes, job.the_row.coded) };

    ghost view = { λ s. record { base = s.base; jobs = s.files.items; removed = s.removed.items } };

    ghost invariant = { λ s. (s.environments.items ≡ map (job_env s.base) s.files.items) × AreInOrder name_of s.files.items };
}

// The value that a setting assigns to its key: its own, or else that of the base.
fn setting_value<'a>(base: &'a Env, key: &str, value: Option<&'a Text>) -> Option<&'a str>
    ensures { option_copied result ≡ setting_value base.now key.now (option_copied value.entry) }
{
    match value {
        Some(value) => Some(value.as_str()),
        None => base.get(key),
    }
}

fn set(env: &mut Env, key: &str, value: Option<&str>) -> Result<(), AllocError>
    ensures { OnOk result (env.new ≡ with_value key.now (option_copied value.entry) env.old) }
{
    match value {
        Some(value) => put(env, key, value),
        None => Ok(()),
    }
}

// The keys and values of a job are valid for an environment, so an error means out of memory.
fn put(env: &mut Env, key: &str, value: &str) -> Result<(), AllocError>
    ensures { OnOk result (env.new ≡ with_value key.now (Some value.now) env.old) }
{
    match env.set(key, value) {
        Ok(()) => Ok(()),
        Err(_) => Err(AllocError),
    }
}

fn apply(env: &mut Env, base: &Env, setting: &Setting) -> Result<(), AllocError>
    ensures { OnOk result (env.new ≡ with_value setting.now.key
        (setting_value base.now setting.now.key setting.now.value) env.old) }
{
    let key = setting.key.as_str();
    let value = setting_value(base, key, setting.value.as_ref());
    set(env, key, value)
}

#[tactic(auto, using(crate::proofs::SetupLemmas::settings_left))]
fn environment(base: &Env, settings: &[Setting]) -> Result<Env, AllocError>
    ensures { IfOk result (λ env. env ≡ with_settings base.now settings.now base.now) }
{
    let mut env = base.copy()?;
    for setting in settings {
        apply(&mut env, base, setting)?;
    }
    Ok(env)
}

fn environment_of(base: &Env, job: &JobDef) -> Result<Env, AllocError>
    ensures { IfOk result (λ env. env ≡ job_env base.now job.now) }
{
    environment(base, job.env.as_slice())
}

fn environments_of(alloc: Global, base: &Env, jobs: &[JobFile]) -> Result<Vec<Env>, AllocError>
    ensures { IfOk result (λ all. all.items ≡ map (job_env base.now) jobs.now) }
{
    let mut all = Vec::with_capacity(alloc, jobs.len())?;
    for file in jobs {
        all.push(environment_of(base, file.job())?)?;
    }
    Ok(all)
}

// The environment at this place, or the base.
fn environment_at<'a>(base: &'a Env, environments: &'a [Env], place: usize) -> &'a Env
    ensures { result.now ≡ unwrap_or (slice_get environments.now place) base.now }
{
    match environments.get(place) {
        Some(found) => found,
        None => base,
    }
}

fn is_before(file: &JobFile, name: &str) -> bool
    ensures { result ≡ is_below file.now.name name.now }
{
    file.job().name.as_str().cmp(name).is_lt()
}

fn is_called(file: &JobFile, name: &str) -> bool
    ensures { result ≡ bytes_eq file.now.name name.now }
{
    file.job().name.as_str() == name
}

// Where a name belongs among jobs in order.
fn position(jobs: &[JobFile], name: &str) -> usize
    requires { AreInOrder name_of jobs.now }
    ensures { result ≡ by_name.position name_of name.now jobs.now }
{
    jobs.partition_point(|file| is_before(file, name))
}

// The job of this name among jobs in order, and its index.
fn find_job<'a>(jobs: &'a [JobFile], name: &str) -> Option<(usize, &'a JobFile)>
    requires { AreInOrder name_of jobs.now }
    ensures some { IfSome result (λ found. (job_named name.now jobs.now ≡ Some found.1.now)
        × (slice_get jobs.now found.0 ≡ Some found.1.now) × (found.1.now.name ≡ name.now)) }
    ensures none { IfNone result (job_named name.now jobs.now ≡ None) }
{
    let at = position(jobs, name);
    if at >= jobs.len() {
        return None;
    }
    let file = &jobs[at];
    if is_called(file, name) {
        Some((at, file))
    } else {
        None
    }
}

fn without_start(alloc: Global, file: &JobFile) -> Result<JobFile, AllocError>
    ensures { IfOk result (λ its. its ≡ without_start file.now) }
{
    let mut job = file.job().copy(alloc)?;
    job.start_on = None;
    JobFile::new(alloc, job)
}

// Whether none of the jobs has this name.
fn is_new(jobs: &[JobFile], name: &str) -> bool
    requires { AreInOrder name_of jobs.now }
    ensures { result ≡ not (is_some (job_named name.now jobs.now)) }
{
    match find_job(jobs, name) {
        Some(_) => false,
        None => true,
    }
}

fn has_instances<B: Book>(book: &B, index: usize) -> bool
    ensures { (mode : Mode) (config : Configuration) (c : Chronicle) (its : Bytes)
        → B.stands book.now mode config c → name_at config index ≡ Some its
        → result ≡ is_filled (instances_of its c) }
{
    book.count(index) > 0
}

// Whether a job goes on: the new ones lack it, but it has instances.
fn goes_on<B: Book>(new: &[JobFile], book: &B, index: usize, file: &JobFile) -> bool
    requires { AreInOrder name_of new.now }
    ensures means { (mode : Mode) (config : Configuration) (c : Chronicle) → B.stands book.now mode config c
        → name_at config index ≡ Some file.now.name → result ≡ goes_on new.now c file.now }
    ensures new { result ≡ true → job_named file.now.name new.now ≡ None }
{
    is_new(new, file.job().name.as_str()) && has_instances(book, index)
}

// The old jobs that go on though the new ones lack them.
fn going_on<B: Book>(
    alloc: Global,
    new: &[JobFile],
    book: &B,
    old: &[JobFile],
) -> Result<Vec<JobFile>, AllocError>
    requires new { AreInOrder name_of new.now }
    requires old { AreInOrder name_of old.now }
    ensures going { IfOk result (λ going. (mode : Mode) (config : Configuration) (c : Chronicle)
        → B.stands book.now mode config c → old.now ≡ config.jobs
        → going.items ≡ going_on new.now old.now c) }
    ensures order { IfOk result (λ going. AreInOrder name_of going.items) }
    ensures others { IfOk result (λ going. AreOthers new.now going.items) }
{
    let mut going = Vec::new(alloc);
    for (index, file) in old.iter().enumerate() {
        if goes_on(new, book, index, file) {
            going.push(without_start(alloc, file)?)?;
        }
    }
    Ok(going)
}

fn names_of(alloc: Global, files: &[JobFile]) -> Result<Vec<Name>, AllocError>
    ensures { IfOk result (λ names. names.items ≡ job_names files.now) }
{
    let mut names = Vec::with_capacity(alloc, files.len())?;
    for file in files {
        names.push(file.job().name.copy()?)?;
    }
    Ok(names)
}

// Sorts files by the byte order of their names.
fn sort_files(files: &mut Vec<JobFile>) -> Result<(), AllocError>
    ensures { OnOk result (files.new.items ≡ in_order name_of files.old.items) }
{
    files.sort_by(|file, other| file.job().name.as_str().cmp(other.job().name.as_str()))
}

// These files and those, in byte order of names.
fn merged(mut files: Vec<JobFile>, mut others: Vec<JobFile>) -> Result<Vec<JobFile>, AllocError>
    ensures { IfOk result (λ all. all.items ≡ in_order name_of (files.items ++ others.items)) }
{
    files.append(&mut others)?;
    sort_files(&mut files)?;
    Ok(files)
}

impl Setup {
    /// The jobs of a table, and the environment of each.
    pub fn new(alloc: Global, table: Table, base: Env) -> Result<Self, AllocError>
        ensures { IfOk result (λ setup. setup ≡ started_with base table) }
    {
        table.is_given();
        let files = table.into_files(alloc)?;
        let environments = environments_of(alloc, &base, files.as_slice())?;
        Ok(Setup {
            base,
            files,
            environments,
            removed: Vec::new(alloc),
        })
    }

    /// The jobs of a table in place of the old ones, of which those with instances go on.
    pub fn load<B: Book>(&self, alloc: Global, book: &B, table: Table) -> Result<Self, AllocError>
        ensures { IfOk result (λ setup. (mode : Mode) (c : Chronicle) → B.stands book.now mode self.now c
            → setup ≡ with_jobs table self.now c) }
    {
        table.is_given();
        self.is_ordered();
        let base = self.base.copy()?;
        let new = table.into_files(alloc)?;
        let going = going_on(alloc, new.as_slice(), book, self.jobs())?;
        let removed = names_of(alloc, going.as_slice())?;
        let files = merged(new, going)?;
        let environments = environments_of(alloc, &base, files.as_slice())?;
        Ok(Setup {
            base,
            files,
            environments,
            removed,
        })
    }

    /// Whether a load removed the job of this name.
    pub fn is_removed(&self, name: &str) -> bool
        ensures { result ≡ is_removed self.now name.now }
    {
        self.removed.iter().any(|other| other.as_str() == name)
    }

    /// The jobs, in byte order of names.
    pub fn jobs(&self) -> &[JobFile]
        ensures { result.now ≡ self.now.jobs }
    {
        self.files.as_slice()
    }

    /// The jobs are in byte order of names.
    pub fn is_ordered(&self)
        ensures { AreInOrder name_of self.now.jobs }
    {
        let _files = &self.files;
    }

    /// No two jobs have the same name.
    pub fn names_differ(&self)
        ensures { AreDistinct self.now.jobs }
    {
        let _files = &self.files;
    }

    pub fn job_named(&self, name: &str) -> Option<(usize, &JobFile)>
        ensures some { IfSome result (λ found. (job_named name.now self.now.jobs ≡ Some found.1.now)
            × (name_at self.now found.0 ≡ Some name.now) × (job_at self.now found.0 ≡ Some found.1.now) × (found.1.now.name ≡ name.now)) }
        ensures none { IfNone result (job_named name.now self.now.jobs ≡ None) }
    {
        find_job(self.files.as_slice(), name)
    }

    /// The environment that init was started with.
    pub(crate) fn base(&self) -> &Env
        ensures { result.now ≡ self.now.base }
    {
        &self.base
    }

    /// The environment of a job by this definition.
    pub(crate) fn environment_by(&self, job: &JobDef) -> Result<Env, AllocError>
        ensures { IfOk result (λ env. env ≡ job_env self.now.base job.now) }
    {
        environment_of(&self.base, job)
    }

    pub fn environment_at(&self, index: usize) -> &Env
        ensures { (job : JobDefValue) → job_at self.now index ≡ Some job
            → result.now ≡ env_of_job self.now job.name }
    {
        self.names_differ();
        environment_at(&self.base, self.environments.as_slice(), index)
    }
}
