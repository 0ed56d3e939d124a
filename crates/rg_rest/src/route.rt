// The table of the routes.
ghost use Rattle.std.specs.Prelude.{◌≡◌, codes};
ghost use Rattle.rg_rest.specs.Patterns.{path_routes};
ghost use Rattle.rg_rest.specs.Table.{all_routes, row_of};

use http::Method;

/// What follows a route's text in a path.
#[derive(Clone, Copy, Debug, PartialEq, Eq)]
pub(crate) enum Tail {
    Nothing,
    /// One segment that isn't empty.
    Name,
    /// 1 to 18 digits.
    Id,
    /// The name of the plugin's service.
    Plugin,
}

/// A route, called by the command that it asks.
#[derive(Clone, Copy, Debug, PartialEq, Eq)]
pub(crate) enum Route {
    PutDef,
    CreateService,
    UpdateService,
    DeleteService,
    CreatePolicy,
    GetPolicy,
    UpdatePolicy,
    DeletePolicy,
    ListPolicies,
    PutRole,
    DeleteRole,
    PutZone,
    DeleteZone,
    PutTags,
    DeleteTags,
    PutUser,
    DeleteUser,
    DownloadPolicies,
    DownloadTags,
    DownloadRoles,
    Decide,
}

/// A route's method, the text that its path begins with, and what follows that text.
#[derive(Drop)]
pub(crate) struct Row {
    pub method: Method,
    pub text: &'static str,
    pub tail: Tail,
}

fn get(text: &'static str, tail: Tail) -> Row
    ensures method { result.method ≡ codes "GET" }
    ensures text { result.text.now ≡ text.now }
    ensures tail { result.tail ≡ tail }
{
    Row {
        method: Method::GET,
        text,
        tail,
    }
}

fn post(text: &'static str, tail: Tail) -> Row
    ensures method { result.method ≡ codes "POST" }
    ensures text { result.text.now ≡ text.now }
    ensures tail { result.tail ≡ tail }
{
    Row {
        method: Method::POST,
        text,
        tail,
    }
}

fn put(text: &'static str, tail: Tail) -> Row
    ensures method { result.method ≡ codes "PUT" }
    ensures text { result.text.now ≡ text.now }
    ensures tail { result.tail ≡ tail }
{
    Row {
        method: Method::PUT,
        text,
        tail,
    }
}

fn delete(text: &'static str, tail: Tail) -> Row
    ensures method { result.method ≡ codes "DELETE" }
    ensures text { result.text.now ≡ text.now }
    ensures tail { result.tail ≡ tail }
{
    Row {
        method: Method::DELETE,
        text,
        tail,
    }
}

impl Route {
    /// All of them.
    pub(crate) fn all() -> &'static [Route]
        ensures { result.now ≡ all_routes }
    {
        &[
            Route::PutDef,
            Route::CreateService,
            Route::UpdateService,
            Route::DeleteService,
            Route::CreatePolicy,
            Route::GetPolicy,
            Route::UpdatePolicy,
            Route::DeletePolicy,
            Route::ListPolicies,
            Route::PutRole,
            Route::DeleteRole,
            Route::PutZone,
            Route::DeleteZone,
            Route::PutTags,
            Route::DeleteTags,
            Route::PutUser,
            Route::DeleteUser,
            Route::DownloadPolicies,
            Route::DownloadTags,
            Route::DownloadRoles,
            Route::Decide,
        ]
    }

    /// One of each path.
    pub(crate) fn paths() -> &'static [Route]
        ensures { result.now ≡ path_routes }
    {
        &[
            Route::PutDef,
            Route::CreateService,
            Route::UpdateService,
            Route::CreatePolicy,
            Route::GetPolicy,
            Route::ListPolicies,
            Route::PutRole,
            Route::DeleteRole,
            Route::PutZone,
            Route::DeleteZone,
            Route::PutTags,
            Route::PutUser,
            Route::DownloadPolicies,
            Route::DownloadTags,
            Route::DownloadRoles,
            Route::Decide,
        ]
    }

    /// Its row of the table.
    #[tactic(auto, unfolding(crate::specs::Table::row_of))]
    pub(crate) fn row(self) -> Row
        ensures method { result.method ≡ (row_of self).method }
        ensures text { result.text.now ≡ (row_of self).text }
        ensures tail { result.tail ≡ (row_of self).tail }
    {
        match self {
            Route::PutDef => post("/service/public/v2/api/servicedef", Tail::Nothing),
            Route::CreateService => post("/service/public/v2/api/service", Tail::Nothing),
            Route::UpdateService => put("/service/public/v2/api/service/name/", Tail::Name),
            Route::DeleteService => delete("/service/public/v2/api/service/name/", Tail::Name),
            Route::CreatePolicy => post("/service/public/v2/api/policy", Tail::Nothing),
            Route::GetPolicy => get("/service/public/v2/api/policy/", Tail::Id),
            Route::UpdatePolicy => put("/service/public/v2/api/policy/", Tail::Id),
            Route::DeletePolicy => delete("/service/public/v2/api/policy/", Tail::Id),
            Route::ListPolicies => get("/service/public/v2/api/policies/", Tail::Name),
            Route::PutRole => post("/service/public/v2/api/roles", Tail::Nothing),
            Route::DeleteRole => delete("/service/public/v2/api/roles/name/", Tail::Name),
            Route::PutZone => post("/service/public/v2/api/zones", Tail::Nothing),
            Route::DeleteZone => delete("/service/public/v2/api/zones/name/", Tail::Name),
            Route::PutTags => put("/service/tags/resources/", Tail::Id),
            Route::DeleteTags => delete("/service/tags/resources/", Tail::Id),
            Route::PutUser => put("/service/users/", Tail::Name),
            Route::DeleteUser => delete("/service/users/", Tail::Name),
            Route::DownloadPolicies => get("/service/plugins/policies/download/", Tail::Name),
            Route::DownloadTags => get("/service/tags/download/", Tail::Name),
            Route::DownloadRoles => get("/service/roles/download/", Tail::Name),
            Route::Decide => post("/service/decide/", Tail::Plugin),
        }
    }
}
