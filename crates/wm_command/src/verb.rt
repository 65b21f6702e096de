// The commands by name.

/// A command that changes the state.
#[derive(Clone, Copy)]
pub enum ChangeVerb {
    Crtcls,
    Crtjobq,
    Crtpgmref,
    Crtjobd,
    Crtsbsd,
    Addjobqe,
    Addrtge,
    Addaje,
    Addpje,
    Rmvjobqe,
    Rmvrtge,
    Rmvaje,
    Rmvpje,
    Strsbs,
    Endsbs,
    Sbmjob,
    Hldjob,
    Rlsjob,
    Chgjob,
    Endjob,
    Hldjobq,
    Rlsjobq,
    Clrjobq,
    Strpj,
    Endpj,
    Evoke,
    Enduse,
    Pwrdwnsys,
}

/// A command that reads.
#[derive(Clone, Copy)]
pub enum ReadVerb {
    Wrkactjob,
    Wrksbmjob,
    Wrksbs,
    Dsplog,
    Wrkjobq,
    Dspjob,
}

/// The commands whose fields stand in one file.
#[derive(Clone, Copy)]
pub enum Family {
    Objects,
    Entries,
    Jobs,
    Control,
}
