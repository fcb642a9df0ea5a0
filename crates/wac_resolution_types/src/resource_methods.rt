//! Constructors and methods of resources.
ghost use Rattle.std.specs.Prelude.{◌≡◌, List, IfOk, OnOk, map, string_bytes};
ghost use Rattle.wac_ast_grammar.specs.Tree.{ResourceMethod as MethodTree};
ghost use Rattle.wac_graph_types.specs.declared.kind.ItemKind.TheVariants as kinds;
ghost use Rattle.wac_graph_types.specs.declared.kind.«Type».TheVariants as types;
ghost use Rattle.wac_graph_types.specs.Scope.{IsFresh};
ghost use Rattle.wac_graph_types.specs.Steps.{Fails};
ghost use Rattle.wac_graph_types.specs.Table.{Names as NamesEntry};
ghost use Rattle.wac_ast_base.specs.Names.{ident_of};
ghost use Rattle.wac_ast_types.specs.Declarations.{constructor_of, method_of, resource_method_of};
ghost use Rattle.wac_graph.specs.Graph.{Parts};
ghost use Rattle.wac_graph.specs.Means.{entry_means};
ghost use Rattle.wac_graph.specs.Origin.{Numbering};
ghost use Rattle.wac_resolution_errors.specs.Error.{duplicate_resource_constructor, duplicate_resource_method};
ghost use Rattle.wac_resolution_errors.specs.ErrorModel.{error_model};
ghost use Rattle.wac_resolution_rules.specs.Bodies.{constructor_name as named_constructor, externs, method_name as named_method, static_name as named_static, name_of_method, HasMethod};
ghost use Rattle.wac_resolution_rules.specs.BrokenTypes.{IsRepeated};
ghost use Rattle.wac_resolution_rules.specs.BrokenBodies.{IsSecondMethod, MethodBroken};
ghost use Rattle.wac_resolution_rules.specs.Errors.{ErrorSays};
ghost use Rattle.wac_resolution_types.specs.Lists.{lists_of, kinds_of};
ghost use Rattle.wac_resolution_types.specs.Bodies.{body_of, IsBody, MethodStep, MethodSteps};

use crate::body::Body;
use crate::method_names::{constructor_name, method_name, static_name};
use std::alloc::{AllocError, Global};
use wac_ast_base::Ident;
use wac_ast_types::{Constructor, Method, ResourceMethod};
use wac_graph::{ExternKind, ItemKind, ResourceId};
use wac_lexer::SourceSpan;
use wac_resolution_errors::Error;
use wac_resolution_state::State;

/// A resource whose methods are taken.
#[derive(Clone, Copy)]
pub(crate) struct NewResource<'n> {
    /// The name.
    pub name: &'n str,
    /// Its number in the graph.
    pub id: ResourceId,
}

/// The name of the constructor of a resource that has none yet.
fn new_constructor_name(
    alloc: Global,
    body: &Body<'_>,
    side: ExternKind,
    resource: &str,
    span: SourceSpan,
) -> Result<String, Error>
    ensures name { IfOk result (λ n. string_bytes n ≡ named_constructor resource.now) }
    ensures ok { IfOk result (λ n. IsFresh (named_constructor resource.now) (kinds_of side (lists_of body.now))) }
    ensures err { ErrorSays result (λ e. (numbering : Numbering) (g : Parts)
        → IsRepeated (externs side (body_of numbering g body.now)) (named_constructor resource.now)
        (duplicate_resource_constructor resource.now span) e) }
{
    let name = constructor_name(alloc, resource)?;
    match body.find(side, &name) {
        Some(_) => Err(Error::DuplicateResourceConstructor {
            resource: String::from_str(alloc, resource)?,
            span,
        }),
        None => Ok(name),
    }
}

/// The error of a method of a resource that has one of its name already.
fn second_method(alloc: Global, resource: &str, id: &Ident<'_>) -> Result<Error, AllocError>
    ensures { IfOk result (λ e. error_model e ≡ duplicate_resource_method id.now.string.now resource.now id.now.span) }
{
    Ok(Error::DuplicateResourceMethod {
        name: String::from_str(alloc, id.string)?,
        resource: String::from_str(alloc, resource)?,
        span: id.span,
    })
}

/// The full name of a method, if the resource has no method of its name yet, static or not.
fn new_method_name(
    method: &Method<'_>,
    alloc: Global,
    body: &Body<'_>,
    side: ExternKind,
    resource: &str,
) -> Result<String, Error>
    ensures name { IfOk result (λ n. string_bytes n
        ≡ name_of_method method.now.is_static resource.now method.now.id.string.now) }
    ensures method { IfOk result (λ n. IsFresh (named_method resource.now method.now.id.string.now)
        (kinds_of side (lists_of body.now))) }
    ensures fixed { IfOk result (λ n. IsFresh (named_static resource.now method.now.id.string.now)
        (kinds_of side (lists_of body.now))) }
    ensures err { ErrorSays result (λ e. (numbering : Numbering) (g : Parts)
        → IsSecondMethod side resource.now (body_of numbering g body.now) (ident_of method.now.id) e) }
{
    let full = method_name(alloc, resource, method.id.string)?;
    if body.find(side, &full).is_some() {
        return Err(second_method(alloc, resource, &method.id)?);
    }
    let fixed = static_name(alloc, resource, method.id.string)?;
    if body.find(side, &fixed).is_some() {
        return Err(second_method(alloc, resource, &method.id)?);
    }
    if method.is_static {
        Ok(fixed)
    } else {
        Ok(full)
    }
}

/// Takes a constructor.
fn add_constructor(
    constructor: &Constructor<'_>,
    state: &mut State,
    body: &mut Body<'_>,
    side: ExternKind,
    resource: &NewResource<'_>,
) -> Result<(), Error>
    requires body { IsBody state.old.graph.types side (lists_of body.old) }
    requires resource { NamesEntry state.old.graph.types (kinds.Ty (types.Resource resource.now.id)) }
    ensures ok { OnOk result (MethodStep side state.old.graph state.new.graph resource.now.name.now resource.now.id
        (lists_of body.old) (lists_of body.new) (MethodTree.constructor (constructor_of constructor.now))) }
    ensures err { ErrorSays result (λ e. (numbering : Numbering) (before : List MethodTree)
        → MethodBroken side resource.now.name.now (entry_means numbering state.old.graph resource.now.id.0) e
        (body_of numbering state.old.graph body.old) before
        (MethodTree.constructor (constructor_of constructor.now))) }
{
    let full = new_constructor_name(state.alloc, body, side, resource.name, constructor.span)?;
    let func = crate::constructor(&constructor.params, state, &body.names, resource.id)?;
    body.add(state.alloc, side, &full, ItemKind::Func(func))?;
    Ok(())
}

/// Takes a method, which may be static.
fn add_method(
    method: &Method<'_>,
    state: &mut State,
    body: &mut Body<'_>,
    side: ExternKind,
    resource: &NewResource<'_>,
) -> Result<(), Error>
    requires body { IsBody state.old.graph.types side (lists_of body.old) }
    requires resource { NamesEntry state.old.graph.types (kinds.Ty (types.Resource resource.now.id)) }
    ensures ok { OnOk result (MethodStep side state.old.graph state.new.graph resource.now.name.now resource.now.id
        (lists_of body.old) (lists_of body.new) (MethodTree.method (method_of method.now))) }
    ensures err { ErrorSays result (λ e. (numbering : Numbering) (before : List MethodTree)
        → MethodBroken side resource.now.name.now (entry_means numbering state.old.graph resource.now.id.0) e
        (body_of numbering state.old.graph body.old) before (MethodTree.method (method_of method.now))) }
{
    let full = new_method_name(method, state.alloc, body, side, resource.name)?;
    let func = crate::method(
        &method.ty,
        state,
        &body.names,
        resource.id,
        method.is_static,
    )?;
    body.add(state.alloc, side, &full, ItemKind::Func(func))?;
    Ok(())
}

/// Takes a constructor or a method.
fn add_either(
    method: &ResourceMethod<'_>,
    state: &mut State,
    body: &mut Body<'_>,
    side: ExternKind,
    resource: &NewResource<'_>,
) -> Result<(), Error>
    requires body { IsBody state.old.graph.types side (lists_of body.old) }
    requires resource { NamesEntry state.old.graph.types (kinds.Ty (types.Resource resource.now.id)) }
    ensures ok { OnOk result (MethodStep side state.old.graph state.new.graph resource.now.name.now resource.now.id
        (lists_of body.old) (lists_of body.new) (resource_method_of method.now)) }
    ensures err { ErrorSays result (λ e. (numbering : Numbering) (before : List MethodTree)
        → MethodBroken side resource.now.name.now (entry_means numbering state.old.graph resource.now.id.0) e
        (body_of numbering state.old.graph body.old) before (resource_method_of method.now)) }
{
    match method {
        ResourceMethod::Constructor(constructor) => {
            add_constructor(constructor, state, body, side, resource)
        }
        ResourceMethod::Method(method) => add_method(method, state, body, side, resource),
    }
}

/// Takes the constructors and methods of a resource in order.
pub(crate) fn add_methods(
    methods: &[ResourceMethod<'_>],
    state: &mut State,
    body: &mut Body<'_>,
    side: ExternKind,
    resource: &NewResource<'_>,
) -> Result<(), Error>
    requires body { IsBody state.old.graph.types side (lists_of body.old) }
    requires resource { NamesEntry state.old.graph.types (kinds.Ty (types.Resource resource.now.id)) }
    ensures ok { OnOk result (MethodSteps side state.old.graph state.new.graph resource.now.name.now resource.now.id
        (lists_of body.old) (lists_of body.new) (map resource_method_of methods.now)) }
    ensures err { ErrorSays result (λ e. (numbering : Numbering)
        → Fails (HasMethod side resource.now.name.now (entry_means numbering state.old.graph resource.now.id.0))
        (MethodBroken side resource.now.name.now (entry_means numbering state.old.graph resource.now.id.0) e)
        (body_of numbering state.old.graph body.old) (map resource_method_of methods.now)) }
{
    for method in methods {
        add_either(method, state, body, side, resource)?;
    }
    Ok(())
}
