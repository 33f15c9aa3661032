ghost use Rattle.std.specs.Prelude.{◌≡◌, IfOk};

use crate::parts::{Part, both, copy_name, copy_parts};
use crate::statements::copy_stmts;
use crate::{
    Aim, App, Component, Decl, Environment, Flag, Member, MemberKind, Pipe, Place, Provider,
    Service,
};
use std::alloc::{AllocError, Global};

impl App {
    /// An equal application. Its own lists and boxes are made anew, and texts and values are shared,
    /// so the cost is the number of its parts.
    pub fn copy(&self, alloc: Global) -> Result<App, AllocError>
        ensures { IfOk result (λ copy. copy ≡ self.now) }
    {
        let decls = copy_parts(alloc, &self.decls)?;
        Ok(App { decls })
    }
}

impl Provider {
    fn copy(&self) -> Result<Provider, AllocError>
        ensures { IfOk result (λ copy. copy ≡ self.now) }
    {
        match self {
            Provider::Plain(token) => Ok(Provider::Plain(token.copy()?)),
            Provider::Other(token, service) => {
                let (token, service) = both(token.copy(), service.copy())?;
                Ok(Provider::Other(token, service))
            }
            Provider::Constant(token, value) => {
                let (token, value) = both(token.copy(), value.copy())?;
                Ok(Provider::Constant(token, value))
            }
            Provider::From(token, other) => {
                let (token, other) = both(token.copy(), other.copy())?;
                Ok(Provider::From(token, other))
            }
        }
    }
}

impl Part for (Place, Provider) {
    fn copy_part(&self, _alloc: Global) -> Result<(Place, Provider), AllocError> {
        Ok((self.0, self.1.copy()?))
    }
}

impl Part for Flag {
    fn copy_part(&self, _alloc: Global) -> Result<Flag, AllocError> {
        Ok(*self)
    }
}

impl Aim {
    fn copy(&self) -> Result<Aim, AllocError>
        ensures { IfOk result (λ copy. copy ≡ self.now) }
    {
        match self {
            Aim::Component(name) => Ok(Aim::Component(name.copy()?)),
            Aim::Reference(name) => Ok(Aim::Reference(name.copy()?)),
        }
    }
}

impl MemberKind {
    fn copy(&self, alloc: Global) -> Result<MemberKind, AllocError>
        ensures { IfOk result (λ copy. copy ≡ self.now) }
    {
        match self {
            MemberKind::Field(value) => Ok(MemberKind::Field(value.copy()?)),
            MemberKind::Signal(value) => Ok(MemberKind::Signal(value.copy()?)),
            MemberKind::Getter(value) => Ok(MemberKind::Getter(value.copy(alloc)?)),
            MemberKind::Method(params, body) => {
                let body = copy_stmts(alloc, body.as_slice());
                let (params, body) = both(copy_parts(alloc, params), body)?;
                Ok(MemberKind::Method(params, body))
            }
            MemberKind::Init(body) => Ok(MemberKind::Init(copy_stmts(alloc, body.as_slice())?)),
            MemberKind::Inject(token, flags) => {
                let (token, flags) = both(token.copy(), copy_parts(alloc, flags))?;
                Ok(MemberKind::Inject(token, flags))
            }
            MemberKind::Input(required, start) => Ok(MemberKind::Input(*required, start.copy()?)),
            MemberKind::Output => Ok(MemberKind::Output),
            MemberKind::Provide(provider) => Ok(MemberKind::Provide(provider.copy()?)),
            MemberKind::ViewProvide(provider) => Ok(MemberKind::ViewProvide(provider.copy()?)),
            MemberKind::Query(kind, aim, descendants) => {
                Ok(MemberKind::Query(*kind, aim.copy()?, *descendants))
            }
        }
    }
}

impl Part for Member {
    fn copy_part(&self, alloc: Global) -> Result<Member, AllocError> {
        let (name, kind) = both(self.name.copy(), self.kind.copy(alloc))?;
        Ok(Member {
            place: self.place,
            name,
            kind,
        })
    }
}

impl Component {
    fn copy(&self, alloc: Global) -> Result<Component, AllocError>
        ensures { IfOk result (λ copy. copy ≡ self.now) }
    {
        let head = both(self.name.copy(), self.selector.copy(alloc));
        let members = copy_parts(alloc, &self.members);
        let body = both(members, self.template.copy(alloc));
        let ((name, selector), (members, template)) = both(head, body)?;
        Ok(Component {
            place: self.place,
            name,
            selector,
            onpush: self.onpush,
            members,
            template,
        })
    }
}

impl Service {
    fn copy(&self, alloc: Global) -> Result<Service, AllocError>
        ensures { IfOk result (λ copy. copy ≡ self.now) }
    {
        let (name, members) = both(self.name.copy(), copy_parts(alloc, &self.members))?;
        Ok(Service {
            place: self.place,
            name,
            root: self.root,
            members,
        })
    }
}

impl Pipe {
    fn copy(&self, alloc: Global) -> Result<Pipe, AllocError>
        ensures { IfOk result (λ copy. copy ≡ self.now) }
    {
        let head = both(self.name.copy(), copy_parts(alloc, &self.params));
        let ((name, params), value) = both(head, self.value.copy(alloc))?;
        Ok(Pipe {
            place: self.place,
            name,
            params,
            value,
        })
    }
}

impl Environment {
    fn copy(&self, alloc: Global) -> Result<Environment, AllocError>
        ensures { IfOk result (λ copy. copy ≡ self.now) }
    {
        let head = both(self.name.copy(), copy_name(&self.under));
        let ((name, under), provides) = both(head, copy_parts(alloc, &self.provides))?;
        Ok(Environment {
            place: self.place,
            name,
            under,
            provides,
        })
    }
}

impl Part for Decl {
    fn copy_part(&self, alloc: Global) -> Result<Decl, AllocError> {
        match self {
            Decl::Component(component) => Ok(Decl::Component(component.copy(alloc)?)),
            Decl::Service(service) => Ok(Decl::Service(service.copy(alloc)?)),
            Decl::Pipe(pipe) => Ok(Decl::Pipe(pipe.copy(alloc)?)),
            Decl::Environment(environment) => Ok(Decl::Environment(environment.copy(alloc)?)),
            Decl::Token(place, name) => Ok(Decl::Token(*place, name.copy()?)),
            Decl::Bootstrap(place, name, under) => {
                let (name, under) = both(name.copy(), copy_name(under))?;
                Ok(Decl::Bootstrap(*place, name, under))
            }
        }
    }
}
